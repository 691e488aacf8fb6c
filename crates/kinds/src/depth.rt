// Depth: five levels on each side.
ghost use Rattle.std.proofs.Common.{ap};
ghost use Rattle.kinds.specs.Levels.{numbers};
ghost use Rattle.kinds.specs.Depth.{every, side_after};

use crate::book::{BookOf, FiveLevels};
use crate::side::BookSide;
use messages::fields::QuoteFields;
use std::marker::PhantomData;

// The kind.
pub type Depth = BookOf<FiveLevels>;

// The name stands for a value too, as that of a unit struct does.
pub const Depth: Depth = BookOf(PhantomData);

impl BookSide for FiveLevels {
    ghost width = { 10 };

    ghost shows = { λ side. numbers side.levels };

    ghost takes = { every };

    ghost after = { side_after };

    fn takes(_quote: QuoteFields) -> bool {
        true
    }

    // The delete level goes, then the quote's level comes in as the insert level.
    #[tactic(auto, using(crate::proofs::Shown::levels_numbers))]
    fn quote(&mut self, quote: QuoteFields) {
        self.change(quote.delete, quote.insert, quote.into());
    }

    #[tactic(auto, using(crate::specs::Levels::ten))]
    fn fits(&self) {
        self.has_five();
    }

    ghost empty = { λ side default. ap numbers default };
}
