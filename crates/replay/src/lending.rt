// Stores whose packets lie in memory, and the fetch that all of them share.
ghost use Rattle.std.specs.Prelude.{◌≡◌, ℕ, List, length, Option};
ghost use Rattle.std.specs.Option.{option_map};
ghost use Rattle.codes.specs.Refusals.{answered};
ghost use Rattle.replay.specs.Stores.{Shaped, fetch_verdict, fetched_into};

use crate::store::check_fetch;
use codes::refusal::Refusal;

// A store that lends the packet of a number. Its impl of `ReplayStore` is one call of `fetch_lent`; an impl for all such
// stores at once would overlap that for references.
pub trait LendingStore {
    // What is held under a number, and that it has the shape that a replay store asks for.
    ghost held: { Self → ℕ → Option (List ℕ) };

    ghost shaped: { (store : Self) (number : ℕ) → Shaped number (held store number) };

    // The packet held under a number.
    fn lend(&self, number: u32) -> Option<&[u8]>
        ensures { option_map (λ x. x.now) result ≡ held self.now number };

    // Fetches as a replay store does: copies the packet of a number to the front of the buffer.
    final fn fetch_lent(&self, number: u32, buffer: &mut [u8]) -> Result<Option<usize>, Refusal>
        ensures answers { answered (λ found. found) result ≡ fetch_verdict (held self.now number) number (length buffer.old) }
        ensures leaves { buffer.new ≡ fetched_into (held self.now number) number buffer.old }
    {
        check_fetch(number, buffer.len())?;
        let Some(packet) = self.lend(number) else {
            return Ok(None);
        };
        buffer[..packet.len()].copy_from_slice(packet);
        Ok(Some(packet.len()))
    }
}
