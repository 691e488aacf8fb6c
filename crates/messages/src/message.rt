// A message that borrows its own bytes of the packet.
//
// Every method is a total function of those bytes. Of a message that was read, the fields are the
// content that the reader's contract speaks of.
ghost use Rattle.std.specs.Prelude.{◌≡◌, ◌≤◌, length};
ghost use Rattle.messages.specs.Content.{size, stamp_in, name_in};
ghost use Rattle.messages.specs.Messages.{content, own_bytes};
ghost use Rattle.messages.specs.Verdict.{quote_fields, imbalance_fields, event_fields};

use crate::fields::{EventFields, EventForm, ImbalanceFields, QuoteFields};
use crate::numbers::{part, u32_at};
use crate::symbol::Symbol;
use codes::auction::Auction;
use codes::event::EventCode;
use codes::quote::{Level, Side};

// A message of a type whose messages have LEN bytes, by those bytes. (A derived equality of arrays of any LEN would ask
// a bound on LEN of every user.)
#[derive(Clone, Copy)]
pub struct Own<'a, const LEN: usize> {
    pub(crate) bytes: &'a [u8; LEN],
}

pub type Quote<'a> = Own<'a, 52>;

pub type Imbalance<'a> = Own<'a, 60>;

pub type Event<'a> = Own<'a, 44>;

impl<'a> Own<'a, 52> {
    // Its fields, read from their places.
    pub fn fields(self) -> QuoteFields
        ensures { result ≡ quote_fields self.entry.bytes.now }
    {
        let own = self.bytes;
        QuoteFields {
            stamp: u32_at(own, 4),
            number: u32_at(own, 8),
            symbol: part(own, 32),
            side: Side::try_from(own[41]).unwrap_or(Side::Offer),
            insert: Level::try_from(own[42]).unwrap_or(Level::Fifth),
            delete: Level::try_from(own[43]).unwrap_or(Level::Fifth),
            contracts: u32_at(own, 44),
            price: u32_at(own, 48),
        }
    }
}

impl<'a> Own<'a, 60> {
    // Its fields, read from their places.
    pub fn fields(self) -> ImbalanceFields
        ensures { result ≡ imbalance_fields self.entry.bytes.now }
    {
        let own = self.bytes;
        ImbalanceFields {
            stamp: u32_at(own, 4),
            number: u32_at(own, 8),
            symbol: part(own, 32),
            auction: Auction::try_from(own[41]).unwrap_or(Auction::Closing),
            time: u16::from_be_bytes([own[42], own[43]]),
            contracts: u32_at(own, 44),
            price: u32_at(own, 48),
            total: u32_at(own, 52),
            market: u32_at(own, 56),
        }
    }
}

impl<'a> Own<'a, 44> {
    // Its fields, read from their places.
    pub fn fields(self) -> EventFields
        ensures { result ≡ event_fields self.entry.bytes.now }
    {
        let own = self.bytes;
        let form = match EventCode::try_from((own[42], own[43])) {
            Ok(EventCode::Series(code)) => EventForm::Numbered {
                number: u32_at(own, 8),
                symbol: part(own, 32),
                code,
            },
            Ok(EventCode::Underlying(code)) => EventForm::Underlying(code),
            Ok(EventCode::Reset) | Err(_) => EventForm::Reset,
        };
        EventFields {
            stamp: u32_at(own, 4),
            form,
        }
    }
}

// A message of one of the three types.
#[derive(Clone, Copy)]
pub enum Message<'a> {
    Quote(Quote<'a>),
    Imbalance(Imbalance<'a>),
    Event(Event<'a>),
}

impl<'a> Message<'a> {
    // The length of the message, 44 to 60 bytes.
    pub fn size(self) -> usize
        ensures value { result ≡ size (content self.entry) }
        ensures bounds { (44 ≤ result) × (result ≤ 60) }
    {
        match self {
            Message::Quote(_) => 52,
            Message::Imbalance(_) => 60,
            Message::Event(_) => 44,
        }
    }

    // Its own bytes of the packet, 44 at least.
    pub fn bytes(self) -> &'a [u8]
        ensures own { result.now ≡ own_bytes self.entry }
        ensures least { 44 ≤ length result.now }
    {
        match self {
            Message::Quote(Own { bytes }) => bytes,
            Message::Imbalance(Own { bytes }) => bytes,
            Message::Event(Own { bytes }) => bytes,
        }
    }

    // Its stamp.
    pub fn stamp(self) -> u32
        ensures { result ≡ stamp_in (content self.entry) }
    {
        u32_at(self.bytes(), 4)
    }

    // The number and the symbol of a message of a series.
    pub fn name(self) -> Option<(u32, Symbol)>
        ensures { result ≡ name_in (content self.entry) }
    {
        if let Message::Event(event) = self {
            let own = event.bytes;
            if !matches!(
                EventCode::try_from((own[42], own[43])),
                Ok(EventCode::Series(_))
            ) {
                return None;
            }
        }
        let own = self.bytes();
        Some((u32_at(own, 8), part(own, 32)))
    }
}
