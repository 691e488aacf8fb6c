// What each message says, field by field: what is read from a message, and what one is written from.
ghost use Rattle.std.specs.Prelude.{◌≡◌};
ghost use Rattle.messages.specs.Content.{form_code};

use crate::symbol::Symbol;
use codes::auction::Auction;
use codes::event::{EventCode, SeriesEvent, UnderlyingEvent};
use codes::quote::{Level, Side};

// The levels of one side change: the delete level goes, then this one comes in as the insert level.
#[derive(Clone, Copy, Debug, PartialEq, Eq)]
pub struct QuoteFields {
    // Milliseconds since midnight.
    pub stamp: u32,
    pub number: u32,
    pub symbol: Symbol,
    pub side: Side,
    pub insert: Level,
    pub delete: Level,
    pub contracts: u32,
    // In ten-thousandths.
    pub price: u32,
}

// The latest time of an auction.
pub const LATEST_TIME: u16 = 2400;

// What an auction would trade, and what it would leave over.
#[derive(Clone, Copy, Debug, PartialEq, Eq)]
pub struct ImbalanceFields {
    pub stamp: u32,
    pub number: u32,
    pub symbol: Symbol,
    pub auction: Auction,
    // Hours times 100, plus minutes.
    pub time: u16,
    pub contracts: u32,
    pub price: u32,
    pub total: u32,
    pub market: u32,
}

// Something happened to a series, to an underlying, or to the whole subscription.
#[derive(Clone, Copy, Debug, PartialEq, Eq)]
pub struct EventFields {
    pub stamp: u32,
    pub form: EventForm,
}

#[derive(Clone, Copy, Debug, PartialEq, Eq)]
pub enum EventForm {
    // Of one series: it takes its place among that series' numbers.
    Numbered {
        number: u32,
        symbol: Symbol,
        code: SeriesEvent,
    },
    // Of all series of an underlying: it changes no book.
    Underlying(UnderlyingEvent),
    // It stands at the front of packet 1, which starts a session.
    Reset,
}

// What the conversion below means, stated of the member that generic callers see.
pub fn forms_have_codes()
    ensures { (form : _) (code : _) → ⟦<EventCode as From<EventForm>>⟧.from_gives form code → code ≡ form_code form }
{}

// Which event it is, by its two codes.
impl From<EventForm> for EventCode {
    ghost from_gives = { λ form code. code ≡ form_code form };

    fn from(form: EventForm) -> EventCode {
        match form {
            EventForm::Numbered { code, .. } => EventCode::Series(code),
            EventForm::Underlying(code) => EventCode::Underlying(code),
            EventForm::Reset => EventCode::Reset,
        }
    }
}
