// What opens a session: the check of its watch list, and slots that get their symbols.
ghost use Rattle.std.specs.Prelude.{◌≡◌, length};
ghost use Rattle.codes.specs.Refusals.{refusal_of};
ghost use Rattle.runs.specs.WatchLists.{watch_fault};
ghost use Rattle.runs.specs.Watching.{named};
ghost use Rattle.slots.specs.Slots.{watchings};

use crate::slot::Slot;
use codes::refusal::Refusal;
use kinds::kind::Kind;
pub use messages::symbol::MOST_SYMBOLS;
use messages::symbol::{Symbol, first_bad};

// Whether these symbols can be watched in these slots, or refusal 10: at 1,024 for more symbols than that, at the first
// malformed or repeated one, at 0 where there are not as many slots.
pub fn check_watch_list<R>(symbols: &[Symbol], slots: &[Slot<R>]) -> Result<(), Refusal>
    ensures { refusal_of result ≡ watch_fault symbols.now (length slots.now) }
{
    if symbols.len() > MOST_SYMBOLS {
        return Err(Refusal::BadWatchList(MOST_SYMBOLS));
    }
    if let Some(index) = first_bad(symbols) {
        return Err(Refusal::BadWatchList(index));
    }
    if slots.len() != symbols.len() {
        return Err(Refusal::BadWatchList(0));
    }
    Ok(())
}

// Each slot gets a symbol of the list, as far as both go.
#[tactic(auto, using(crate::proofs::Places::name_on, crate::proofs::Places::name_end))]
pub fn name_all<K: Kind>(slots: &mut [Slot<K::Record>], symbols: &[Symbol])
    ensures { watchings K.Kind.shows slots.new ≡ named (watchings K.Kind.shows slots.old) symbols.now }
{
    // By index: after a loop over a zip of `iter_mut` a proof knows nothing of the slots.
    for i in 0..slots.len().min(symbols.len()) {
        slots[i].symbol = symbols[i];
    }
}
