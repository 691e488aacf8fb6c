// A book of two sides, and the kinds whose record it is.
ghost use Rattle.std.specs.Prelude.{◌≡◌, suc, ◌<◌, length, take, replicate};
ghost use Rattle.codes.specs.Codes.{level_number};
ghost use Rattle.kinds.specs.Levels.{removed, inserted, moved, Change, no_level, new_level};
ghost use Rattle.kinds.specs.Books.{shown, cleared, after_quote, book_meaning};

use crate::kind::Kind;
use crate::side::BookSide;
use codes::event::SeriesEvent;
use codes::quote::{Level, Side};
use messages::fields::{EventForm, QuoteFields};
use messages::message::Message;
use std::marker::PhantomData;

// A price in ten-thousandths, and the contracts at it. The default is no level.
#[derive(Clone, Copy, Debug, Default, PartialEq, Eq)]
pub struct PriceLevel {
    pub price: u32,
    pub contracts: u32,
}

// The level that a quote brings.
impl From<QuoteFields> for PriceLevel {
    ghost from_gives = { λ quote level. level ≡ new_level quote };

    fn from(quote: QuoteFields) -> PriceLevel {
        PriceLevel {
            price: quote.price,
            contracts: quote.contracts,
        }
    }
}

// The five best levels of one side, the best one first.
#[derive(Clone, Copy, Debug, PartialEq, Eq)]
pub struct FiveLevels {
    pub levels: [PriceLevel; 5],
}

// No level on the side, said of the whole list. (A derive says it of each element.)
impl Default for FiveLevels {
    ghost is_default = { λ side. side.levels ≡ replicate 5 no_level };

    fn default() -> FiveLevels {
        FiveLevels {
            levels: [PriceLevel::default(); 5],
        }
    }
}

impl FiveLevels {
    // Says to the check that a side has five levels, which it knows where one is read.
    pub(crate) fn has_five(&self)
        ensures { length self.now.levels ≡ 5 }
    {
        let _ = self.levels[0];
    }

    // A level goes: those behind it move up, and the fifth place is free.
    fn remove(&mut self, level: Level)
        ensures four { take 4 self.new.levels ≡ removed (level_number level) self.old.levels }
        ensures five { length self.old.levels ≡ 5 }
    {
        let place = level as usize;
        self.levels[place..].rotate_left(1);
    }

    // A level comes in: those behind it move down, and what stood in the fifth place falls out.
    #[tactic(auto, using(crate::proofs::Fives::turned_right))]
    fn insert(&mut self, level: Level, new: PriceLevel)
        ensures { self.new.levels ≡ inserted (level_number level) new (take 4 self.old.levels) }
    {
        let place = level as usize;
        self.levels[place..].rotate_right(1);
        self.levels[place] = new;
    }

    // The delete level goes, then the new one comes in as the insert level.
    pub fn change(&mut self, delete: Level, insert: Level, new: PriceLevel)
        ensures value { self.new.levels ≡ moved (level_number delete) (level_number insert) new self.old.levels }
        ensures laws { Change (level_number delete) (level_number insert) new self.old.levels self.new.levels }
    {
        self.remove(delete);
        self.insert(insert, new);
    }
}

// The two sides of a book. The default has no level.
#[derive(Clone, Copy, Debug, Default, PartialEq, Eq)]
pub struct Book<S> {
    pub bid: S,
    pub offer: S,
}

impl<S: BookSide> Book<S> {
    // The quote changes its side, or leaves the book if it is of no level that is kept.
    fn quote(&mut self, quote: QuoteFields)
        ensures { shown S.shows self.new ≡ after_quote S.width S.takes S.after quote (shown S.shows self.old) }
    {
        self.bid.fits();
        if S::takes(quote) {
            match quote.side {
                Side::Bid => self.bid.quote(quote),
                Side::Offer => self.offer.quote(quote),
            }
        }
    }

    // `A` empties the offer, `B` the bid, `C` both; every other event leaves the book.
    fn clear(&mut self, form: EventForm)
        ensures { shown S.shows self.new ≡ cleared S.width form (shown S.shows self.old) }
    {
        self.bid.fits();
        if let EventForm::Numbered { code, .. } = form {
            match code {
                SeriesEvent::ClearOffer => self.offer = S::default(),
                SeriesEvent::ClearBid => self.bid = S::default(),
                SeriesEvent::ClearSeries => *self = Book::default(),
                _ => {}
            }
        }
    }
}

// The kind whose record is a book of two such sides.
#[derive(Clone, Copy, Debug, PartialEq, Eq)]
pub struct BookOf<S>(pub(crate) PhantomData<S>);

impl<S: BookSide> Kind for BookOf<S> {
    type Record = Book<S>;

    ghost meaning = { book_meaning S.width S.takes S.after };

    ghost shows = { shown S.shows };

    fn empty() -> Book<S> {
        Book::default()
    }

    fn belongs(message: &Message) -> bool {
        match message {
            Message::Quote(quote) => S::takes(quote.fields()),
            Message::Event(_) => true,
            Message::Imbalance(_) => false,
        }
    }

    // Event `C` leaves nothing of a book, whatever it was; no other message settles one.
    fn settles(message: &Message) -> bool {
        match message {
            Message::Event(event) => matches!(
                event.fields().form,
                EventForm::Numbered {
                    code: SeriesEvent::ClearSeries,
                    ..
                }
            ),
            Message::Quote(_) | Message::Imbalance(_) => false,
        }
    }

    fn step(held: &mut Book<S>, message: &Message) {
        match message {
            Message::Quote(quote) => held.quote(quote.fields()),
            Message::Event(event) => held.clear(event.fields().form),
            Message::Imbalance(_) => {}
        }
    }
}
