// Packets on subscription 11, written for the tests.
use codes::event::SeriesEvent;
use codes::quote::{Level, Side};
use codes::refusal::Refusal;
use encode::message::{write_event, write_quote};
use encode::packet::{write_heartbeat, write_packet};
use messages::fields::{EventFields, EventForm, QuoteFields};
use messages::symbol::Symbol;

pub(crate) const WATCHED: Symbol = *b"MSQAJ\0\0\0";

pub(crate) const OTHER: Symbol = *b"MSQAK\0\0\0";

// A value, or the returned number with its offset or index. (`scenarios` has the same for its tests.)
pub(crate) fn told<T>(answer: Result<T, Refusal>) -> Result<T, (u8, Option<usize>)> {
    answer.map_err(|refusal| (refusal.number(), refusal.place()))
}

// A bid at a price comes in as level 1, level 5 goes.
fn quote(symbol: Symbol, number: u32, price: u32) -> [u8; 52] {
    let fields = QuoteFields {
        stamp: 7,
        number,
        symbol,
        side: Side::Bid,
        insert: Level::First,
        delete: Level::Fifth,
        contracts: 10,
        price,
    };
    let mut bytes = [0; 52];
    let _ = write_quote(&fields, 11, &mut bytes);
    bytes
}

// A packet with one quote.
pub(crate) fn quoted(packet: u32, symbol: Symbol, number: u32, price: u32) -> [u8; 60] {
    let mut bytes = [0; 60];
    let _ = write_packet(&quote(symbol, number, price), packet, 11, &mut bytes);
    bytes
}

// A packet with one event.
fn event(packet: u32, form: EventForm, stamp: u32) -> [u8; 52] {
    let mut message = [0; 44];
    let _ = write_event(&EventFields { stamp, form }, 11, &mut message);
    let mut bytes = [0; 52];
    let _ = write_packet(&message, packet, 11, &mut bytes);
    bytes
}

// A packet with the reset of a session.
pub(crate) fn reset(packet: u32, stamp: u32) -> [u8; 52] {
    event(packet, EventForm::Reset, stamp)
}

// A packet that clears the watched series.
pub(crate) fn cleared(packet: u32, number: u32) -> [u8; 52] {
    let form = EventForm::Numbered {
        number,
        symbol: WATCHED,
        code: SeriesEvent::ClearSeries,
    };
    event(packet, form, 7)
}

pub(crate) fn heartbeat(number: u32) -> [u8; 8] {
    let mut bytes = [0; 8];
    let _ = write_heartbeat(number, 11, &mut bytes);
    bytes
}
