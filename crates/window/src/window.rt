// The packets last received, in memory that the caller lends.
ghost use Rattle.std.specs.Prelude.{◌≡◌, ℕ, ◌-◌, ◌/◌, ◌≤◌, true, false, [], length, is_some, is_ok};
ghost use Rattle.std.specs.Option.{option_map};
ghost use Rattle.codes.specs.Refusals.{answered};
ghost use Rattle.feed.specs.Packets.{good_length};
ghost use Rattle.messages.specs.Wire.{be16};
ghost use Rattle.replay.specs.Stores.{holding};

use crate::cell::{CELL, packet_in};
use codes::packet::PacketType;
use codes::refusal::Refusal;
use feed::packet::is_good_length;
use messages::header::RawHeader;
use messages::numbers::in_range;
use replay::store::{ReplayStore, is_packet};

const MOST_CELLS: usize = 64;

// The packets last kept, each at the front of a cell of the area; the cells are a ring over the memory that is lent. Number and length of a packet
// are read from its bytes.
#[derive(Drop)]
pub struct Window<'a> {
    area: &'a mut [u8],
    subscription: u8,
    // The cell of the earliest packet, and how many packets there are.
    first: usize,
    count: usize,

    // The first is one of the cells, or 0 where there are none; and no more packets are held than there are cells.
    ghost first_in: { first ≤ length area.now / 8192 - 1 },
    ghost count_in: { count ≤ length area.now / 8192 },
}

impl<'a> Window<'a> {
    ghost use Rattle.window.specs.Windows.{area_verdict, packets, room, keepable, added, kept, keep_verdict};

    // Whether a window can be made over an area: 1 to 64 cells of 8,192 bytes, else refusal 12.
    pub fn check(area: &[u8]) -> Result<(), Refusal>
        ensures { answered (λ _. tt) result ≡ area_verdict (length area.now) }
    {
        let (cells, rest) = area.as_chunks::<CELL>();
        if (1..=MOST_CELLS).contains(&cells.len()) && rest.is_empty() {
            Ok(())
        } else {
            Err(Refusal::WindowArea)
        }
    }

    // A window over an area, which holds nothing yet. Of an area that is not whole cells the rest is left alone.
    #[tactic(auto, unfolding(crate::specs::Windows::packets_in))]
    pub fn over(area: &'a mut [u8], subscription: u8) -> Window<'a>
        ensures holds { packets result ≡ [] }
        ensures subscription { result.subscription ≡ subscription }
        ensures area { result.area.now ≡ area.old }
        ensures lent { result.area.ghost_name ≡ area.entry.ghost_name }
    {
        Window {
            area,
            subscription,
            first: 0,
            count: 0,
        }
    }

    // Adds an M packet of the window's subscription, in the place of the earliest one where no cell is free; a number
    // already held stays as it is. Refusals 1, 2, 3 (not M) and 4, in this order, change nothing. Messages are not read.
    // The borrow is the same as before (`lent`), of which no ghost field can speak.
    pub fn keep(&mut self, packet: &[u8]) -> Result<(), Refusal>
        ensures answers { answered (λ _. tt) result ≡ keep_verdict (keepable self.old.subscription packet.now) }
        ensures keeps { packets self.new ≡ kept (room self.old) self.old.subscription packet.now (packets self.old) }
        ensures holds { (number : ℕ) → ⟦<Window<'a> as ReplayStore>⟧.held self.new number ≡ holding self.old.subscription (packets self.new) number }
        ensures unchanged { is_ok result ≡ false → self.new ≡ self.old }
        ensures subscription { self.new.subscription ≡ self.old.subscription }
        ensures length { length self.new.area.now ≡ length self.old.area.now }
        ensures lent { self.new.area.ghost_name ≡ self.old.area.ghost_name }
    {
        let number = self.number_to_keep(packet)?;
        if !self.holds(number) {
            self.add(packet);
        }
        Ok(())
    }

    // The packet held under a number.
    pub(crate) fn packet(&self, number: u32) -> Option<&[u8]>
        ensures { option_map (λ x. x.now) result ≡ holding self.now.subscription (packets self.now) number }
    {
        let (cells, _) = self.area.as_chunks::<CELL>();
        let (wrapped, earliest) = cells.split_at(self.first);
        earliest
            .iter()
            .chain(wrapped)
            .take(self.count)
            .map(packet_in)
            .find(|packet| is_packet(packet, self.subscription, number))
    }

    fn holds(&self, number: u32) -> bool
        ensures { result ≡ is_some (holding self.now.subscription (packets self.now) number) }
    {
        self.packet(number).is_some()
    }

    // Takes in a packet, in the place of the earliest where no cell is free.
    fn add(&mut self, packet: &[u8])
        requires { good_length (be16 packet.now 0) (length packet.now) ≡ true }
        ensures keeps { packets self.new ≡ added (room self.old) packet.now (packets self.old) }
        ensures subscription { self.new.subscription ≡ self.old.subscription }
        ensures length { length self.new.area.now ≡ length self.old.area.now }
        ensures lent { self.new.area.ghost_name ≡ self.old.area.ghost_name }
    {
        let cells = self.area.len() / CELL;
        // `over` takes any area, one without a cell too.
        if cells == 0 {
            return;
        }
        // Written into the area: of `as_chunks_mut` std does not say what the area ends as.
        let at = (self.first + self.count) % cells * CELL;
        self.area[at..at + packet.len()].copy_from_slice(packet);
        if self.count < cells {
            self.count += 1;
        } else {
            self.first = (self.first + 1) % cells;
        }
    }

    // The number of an M packet on this subscription, or refusal 1, 2, 3 or 4, in this order. (`Header::read` has the same
    // rows for packets of both types: it answers 4 for a heartbeat with a bad number, which is refused here for its type.)
    fn number_to_keep(&self, packet: &[u8]) -> Result<u32, Refusal>
        ensures { answered (λ n. n) result ≡ keepable self.now.subscription packet.now }
    {
        let header = RawHeader::read(packet).ok_or(Refusal::PacketLength)?;
        if !is_good_length(header.length, packet.len()) {
            return Err(Refusal::PacketLength);
        }
        if header.subscription != self.subscription {
            return Err(Refusal::OtherSubscription);
        }
        if PacketType::try_from(header.code) != Ok(PacketType::Messages) {
            return Err(Refusal::PacketType);
        }
        if !in_range(header.last) {
            return Err(Refusal::NumberOutOfRange);
        }
        Ok(header.last)
    }
}
