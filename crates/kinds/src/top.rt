// Top: the best level of each side.
ghost use Rattle.std.specs.Prelude.{[], ◌∷◌};
ghost use Rattle.std.proofs.Common.{ap₂};
ghost use Rattle.kinds.specs.Levels.{level_shown};
ghost use Rattle.kinds.specs.Top.{of_top, best_after};

use crate::book::{BookOf, PriceLevel};
use crate::side::BookSide;
use codes::quote::Level;
use messages::fields::QuoteFields;
use std::marker::PhantomData;

// The kind.
pub type Top = BookOf<PriceLevel>;

// The name stands for a value too, as that of a unit struct does.
pub const Top: Top = BookOf(PhantomData);

impl BookSide for PriceLevel {
    ghost width = { 2 };

    ghost shows = { level_shown };

    ghost takes = { of_top };

    ghost after = { best_after };

    // Only a quote whose two levels are 1 is of the best level.
    fn takes(quote: QuoteFields) -> bool {
        matches!(quote.insert, Level::First) && matches!(quote.delete, Level::First)
    }

    // The quote's level comes in the place of the old one.
    fn quote(&mut self, quote: QuoteFields) {
        *self = quote.into();
    }

    fn fits(&self) {}

    ghost empty = { λ side default. ap₂ (λ price contracts. price ∷ contracts ∷ []) default.0 default.1 };
}
