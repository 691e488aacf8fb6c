// The codes of a quote: its side and its two levels.
ghost use Rattle.std.specs.Prelude.{◌≡◌};
ghost use Rattle.codes.specs.Codes.{IsRead, sides, side_code, levels, level_number};

use crate::unknown::UnknownCode;

// The side of a book.
#[derive(Clone, Copy, Debug, PartialEq, Eq)]
pub enum Side {
    Bid,
    Offer,
}

// The side that a code stands for: `B` or `S`.
impl TryFrom<u8> for Side {
    type Error = UnknownCode;

    ghost try_from_gives = { IsRead side_code sides };

    fn try_from(code: u8) -> Result<Side, UnknownCode> {
        match code {
            b'B' => Ok(Side::Bid),
            b'S' => Ok(Side::Offer),
            _ => Err(UnknownCode),
        }
    }
}

// The byte that stands for it.
impl From<Side> for u8 {
    ghost from_gives = { λ case byte. byte ≡ side_code case };

    fn from(side: Side) -> u8 {
        match side {
            Side::Bid => b'B',
            Side::Offer => b'S',
        }
    }
}

// A price level, the best one first.
#[derive(Clone, Copy, Debug, PartialEq, Eq)]
pub enum Level {
    First,
    Second,
    Third,
    Fourth,
    Fifth,
}

// The level of a number from 1 to 5.
impl TryFrom<u8> for Level {
    type Error = UnknownCode;

    ghost try_from_gives = { IsRead level_number levels };

    fn try_from(code: u8) -> Result<Level, UnknownCode> {
        match code {
            1 => Ok(Level::First),
            2 => Ok(Level::Second),
            3 => Ok(Level::Third),
            4 => Ok(Level::Fourth),
            5 => Ok(Level::Fifth),
            _ => Err(UnknownCode),
        }
    }
}

// 1 for the best level to 5.
impl From<Level> for u8 {
    ghost from_gives = { λ case byte. byte ≡ level_number case };

    fn from(level: Level) -> u8 {
        match level {
            Level::First => 1,
            Level::Second => 2,
            Level::Third => 3,
            Level::Fourth => 4,
            Level::Fifth => 5,
        }
    }
}
