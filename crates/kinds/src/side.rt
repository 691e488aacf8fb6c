// What a book needs of one of its sides.
ghost use Rattle.std.specs.Prelude.{◌≡◌, ℕ, Bool, List, length, replicate};
ghost use Rattle.messages.specs.declared.fields.QuoteFields.{QuoteFields};

use messages::fields::QuoteFields;

// What is kept of one side. Its default is the side with no level.
pub trait BookSide: Copy + Default {
    // How many numbers a side shows.
    ghost width: { ℕ };

    // What a side means: its numbers, the best level first.
    ghost shows: { Self → List ℕ };

    // Whether a quote changes what is kept.
    ghost takes: { QuoteFields → Bool };

    // What such a quote makes of the numbers of its side.
    ghost after: { QuoteFields → List ℕ → List ℕ };

    // Whether a quote changes what is kept.
    fn takes(quote: QuoteFields) -> bool
        ensures { result ≡ takes quote };

    // Makes the change of such a quote.
    fn quote(&mut self, quote: QuoteFields)
        ensures { shows self.new ≡ after quote (shows self.old) };

    // Says to the check that the side shows so many numbers, which it knows of an array where an element is read.
    fn fits(&self)
        ensures { length (shows self.now) ≡ width };

    // The law: a default side shows zeros.
    ghost empty: { (side : Self) → Self.is_default side → shows side ≡ replicate width 0 };
}
