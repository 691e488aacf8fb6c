// Why a call was refused. One enum serves the whole project, a case for each returned number.
ghost use Rattle.std.specs.Prelude.{◌≡◌, Some};
ghost use Rattle.codes.specs.Refusals.{returned, number_of, place_of, text_of};

use std::error::Error;
use std::fmt;

#[derive(Clone, Copy, Debug, PartialEq, Eq)]
pub enum Refusal {
    // The packet is shorter than 8 or longer than 8,192 bytes, or its length field differs.
    PacketLength,
    OtherSubscription,
    // The type is neither M nor B; where only M will do, it is not M.
    PacketType,
    // A packet number, or the number to fetch, is out of range.
    NumberOutOfRange,
    // A broken message at this offset, an M packet without a message, or a B packet over 8 bytes.
    BrokenMessage(usize),
    // A reset out of its place at this offset, or a packet 1 that does not start with one.
    MisplacedReset(usize),
    // The message at this offset does not belong to the kind of record.
    ForeignMessage(usize),
    // No reset has come yet.
    NoReset,
    BufferTooShort,
    // The watch list is refused at this index.
    BadWatchList(usize),
    NotWatched,
    WindowArea,
    // The session file is at fault at this offset.
    BrokenFile(usize),
    // The server's message has no place now, or its length, type or code is wrong.
    ServerMessage,
    PacketRange,
}

impl Refusal {
    // The returned number, 1 to 15: callers and manuals know a refusal by it.
    pub fn number(self) -> u8
        ensures { result ≡ number_of (returned self) }
    {
        match self {
            Refusal::PacketLength => 1,
            Refusal::OtherSubscription => 2,
            Refusal::PacketType => 3,
            Refusal::NumberOutOfRange => 4,
            Refusal::BrokenMessage(_) => 5,
            Refusal::MisplacedReset(_) => 6,
            Refusal::ForeignMessage(_) => 7,
            Refusal::NoReset => 8,
            Refusal::BufferTooShort => 9,
            Refusal::BadWatchList(_) => 10,
            Refusal::NotWatched => 11,
            Refusal::WindowArea => 12,
            Refusal::BrokenFile(_) => 13,
            Refusal::ServerMessage => 14,
            Refusal::PacketRange => 15,
        }
    }

    // The offset or index that comes with the number, where there is one.
    pub fn place(self) -> Option<usize>
        ensures { result ≡ place_of (returned self) }
    {
        match self {
            Refusal::BrokenMessage(at)
            | Refusal::MisplacedReset(at)
            | Refusal::ForeignMessage(at)
            | Refusal::BadWatchList(at)
            | Refusal::BrokenFile(at) => Some(at),
            _ => None,
        }
    }
}

// The returned number, and the offset or index where there is one.
impl fmt::Display for Refusal {
    ghost output = { λ refusal. Some (text_of (returned refusal)) };

    fn fmt<W: fmt::Write>(&self, f: &mut fmt::Formatter<W>) -> fmt::Result {
        let number = self.number();
        match self.place() {
            Some(place) => write!(f, "refused {number} at {place}"),
            None => write!(f, "refused {number}"),
        }
    }
}

impl Error for Refusal {}
