// The code of an imbalance: its auction.
ghost use Rattle.std.specs.Prelude.{◌≡◌};
ghost use Rattle.codes.specs.Codes.{IsRead, auctions, auction_code};

use crate::unknown::UnknownCode;

// The auction that an imbalance is of.
#[derive(Clone, Copy, Debug, PartialEq, Eq)]
pub enum Auction {
    Open,
    Market,
    Halt,
    Closing,
}

// The auction that a code stands for: `O`, `M`, `H` or `C`.
impl TryFrom<u8> for Auction {
    type Error = UnknownCode;

    ghost try_from_gives = { IsRead auction_code auctions };

    fn try_from(code: u8) -> Result<Auction, UnknownCode> {
        match code {
            b'O' => Ok(Auction::Open),
            b'M' => Ok(Auction::Market),
            b'H' => Ok(Auction::Halt),
            b'C' => Ok(Auction::Closing),
            _ => Err(UnknownCode),
        }
    }
}

// The byte that stands for it.
impl From<Auction> for u8 {
    ghost from_gives = { λ case byte. byte ≡ auction_code case };

    fn from(auction: Auction) -> u8 {
        match auction {
            Auction::Open => b'O',
            Auction::Market => b'M',
            Auction::Halt => b'H',
            Auction::Closing => b'C',
        }
    }
}
