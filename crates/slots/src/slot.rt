// A slot: what is kept of one watched series.
ghost use Rattle.std.specs.Prelude.{◌≡◌, ◌≤◌, replicate};

use messages::symbol::Symbol;

// A record, and the number of the last message taken into it.
#[derive(Debug, PartialEq, Eq, Drop)]
pub struct Kept<R> {
    pub record: R,
    pub last: u32,
}

// A watched series: what is kept of it, and the highest number of it that was seen.
#[derive(Debug, PartialEq, Eq, Drop)]
pub struct Slot<R> {
    pub symbol: Symbol,
    pub kept: Kept<R>,
    pub seen: u32,
    ghost ordered: { kept.last ≤ seen },
}

impl<R> Slot<R> {
    // A slot for a session to fill: no symbol yet, and no message.
    pub fn new(record: R) -> Slot<R>
        ensures { (result.symbol ≡ replicate 8 0) × (result.kept.«record» ≡ «record») × (result.kept.last ≡ 0) × (result.seen ≡ 0) }
    {
        Slot {
            symbol: [0; 8],
            kept: Kept { record, last: 0 },
            seen: 0,
        }
    }
}
