// The interface of a replay store: packets by their number.
ghost use Rattle.std.specs.Prelude.{◌≡◌, ℕ, List, length, Option};
ghost use Rattle.codes.specs.Refusals.{answered};
ghost use Rattle.replay.specs.Stores.{Shaped, fetchable, fetch_verdict, fetched_into, carries};

use codes::packet::PacketType;
use codes::refusal::Refusal;
use feed::packet::{LONGEST_PACKET, is_good_length};
use messages::header::RawHeader;
use messages::numbers::in_range;

// For each number from 1 to 4,294,967,294 a store holds one M packet that carries the number, or nothing.
pub trait ReplayStore {
    // What is held under a number.
    ghost held: { Self → ℕ → Option (List ℕ) };

    // It has the shape of such a packet.
    ghost shaped: { (store : Self) (number : ℕ) → Shaped number (held store number) };

    // Writes the packet of a number to the front of the buffer and answers its length, or answers None and leaves the
    // buffer exactly where nothing is held. Refusals 4 and 9, in this order, leave the buffer.
    fn fetch(&self, number: u32, buffer: &mut [u8]) -> Result<Option<usize>, Refusal>
        ensures answers { answered (λ found. found) result ≡ fetch_verdict (held self.now number) number (length buffer.old) }
        ensures leaves { buffer.new ≡ fetched_into (held self.now number) number buffer.old };
}

// A store behind a reference.
impl<'a, S: ReplayStore> ReplayStore for &'a S {
    ghost held = { λ s n. S.ReplayStore.held s.now n };

    ghost shaped = { λ s n. S.ReplayStore.shaped s.now n };

    fn fetch(&self, number: u32, buffer: &mut [u8]) -> Result<Option<usize>, Refusal> {
        (**self).fetch(number, buffer)
    }
}

// Whether a number may be fetched into a buffer of this length: refusals 4 and 9, in this order.
pub fn check_fetch(number: u32, room: usize) -> Result<(), Refusal>
    ensures { answered (λ _. tt) result ≡ fetchable number room }
{
    if !in_range(number) {
        return Err(Refusal::NumberOutOfRange);
    }
    if room < LONGEST_PACKET {
        return Err(Refusal::BufferTooShort);
    }
    Ok(())
}

// Whether bytes are an M packet on a subscription that carries a number. The number is looked at first: in a search it
// is what most packets differ in.
pub fn is_packet(bytes: &[u8], subscription: u8, number: u32) -> bool
    ensures { result ≡ carries subscription number bytes.now }
{
    let Some(header) = RawHeader::read(bytes) else {
        return false;
    };
    header.last == number
        && PacketType::try_from(header.code) == Ok(PacketType::Messages)
        && header.subscription == subscription
        && is_good_length(header.length, bytes.len())
        && in_range(number)
}
