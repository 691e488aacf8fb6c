// How lines show what they name, a part of each line for a value of each type.
use feed::packet::Header;
use messages::fields::{EventFields, EventForm, ImbalanceFields, QuoteFields};
use messages::message::Message;
use messages::symbol::Symbol;
use sessionfile::header::FileHeader;
use std::fmt;

// A value as a line shows it.
#[derive(Drop)]
pub struct Shown<T>(pub T);

// The letter of a code.
fn letter<C: Into<u8>>(code: C) -> char {
    char::from(code.into())
}

// A symbol without the nulls after it.
impl fmt::Display for Shown<Symbol> {
    fn fmt<W: fmt::Write>(&self, f: &mut fmt::Formatter<W>) -> fmt::Result {
        for byte in self.0 {
            if byte != 0 {
                f.write_char(char::from(byte))?;
            }
        }
        Ok(())
    }
}

impl fmt::Display for Shown<FileHeader> {
    fn fmt<W: fmt::Write>(&self, f: &mut fmt::Formatter<W>) -> fmt::Result {
        let FileHeader {
            packets,
            symbols,
            subscription,
            kind,
            ..
        } = self.0;
        let kind = letter(kind);
        write!(
            f,
            "subscription {subscription} kind {kind} packets {packets} symbols {symbols}"
        )
    }
}

impl fmt::Display for Shown<Header> {
    fn fmt<W: fmt::Write>(&self, f: &mut fmt::Formatter<W>) -> fmt::Result {
        let Header {
            kind,
            subscription,
            number,
        } = self.0;
        let kind = letter(kind);
        write!(f, "{kind} subscription {subscription} number {number}")
    }
}

impl<'a> fmt::Display for Shown<Message<'a>> {
    fn fmt<W: fmt::Write>(&self, f: &mut fmt::Formatter<W>) -> fmt::Result {
        match self.0 {
            Message::Quote(quote) => Shown(quote.fields()).fmt(f),
            Message::Imbalance(imbalance) => Shown(imbalance.fields()).fmt(f),
            Message::Event(event) => Shown(event.fields()).fmt(f),
        }
    }
}

impl fmt::Display for Shown<QuoteFields> {
    fn fmt<W: fmt::Write>(&self, f: &mut fmt::Formatter<W>) -> fmt::Result {
        let QuoteFields {
            stamp,
            number,
            symbol,
            side,
            insert,
            delete,
            contracts,
            price,
        } = self.0;
        let symbol = Shown(symbol);
        let side = letter(side);
        let insert = u8::from(insert);
        let delete = u8::from(delete);
        write!(
            f,
            "quote stamp {stamp} number {number} symbol {symbol} side {side} \
             insert {insert} delete {delete} contracts {contracts} price {price}"
        )
    }
}

impl fmt::Display for Shown<ImbalanceFields> {
    fn fmt<W: fmt::Write>(&self, f: &mut fmt::Formatter<W>) -> fmt::Result {
        let ImbalanceFields {
            stamp,
            number,
            symbol,
            auction,
            time,
            contracts,
            price,
            total,
            market,
        } = self.0;
        let symbol = Shown(symbol);
        let auction = letter(auction);
        write!(
            f,
            "imbalance stamp {stamp} number {number} symbol {symbol} auction {auction} time {time} \
             contracts {contracts} price {price} total {total} market {market}"
        )
    }
}

impl fmt::Display for Shown<EventFields> {
    fn fmt<W: fmt::Write>(&self, f: &mut fmt::Formatter<W>) -> fmt::Result {
        let EventFields { stamp, form } = self.0;
        match form {
            EventForm::Numbered {
                number,
                symbol,
                code,
            } => {
                let symbol = Shown(symbol);
                let code = letter(code);
                write!(
                    f,
                    "event stamp {stamp} number {number} symbol {symbol} code {code}"
                )
            }
            EventForm::Underlying(code) => {
                let code = letter(code);
                write!(f, "underlying stamp {stamp} code {code}")
            }
            EventForm::Reset => write!(f, "reset stamp {stamp}"),
        }
    }
}
