// The code of a kind of record.
ghost use Rattle.std.specs.Prelude.{◌≡◌};
ghost use Rattle.codes.specs.Codes.{IsRead, kinds, kind_code};

use crate::unknown::UnknownCode;

// The kind of record that a session's books are kept in.
#[derive(Clone, Copy, Debug, PartialEq, Eq)]
pub enum KindCode {
    Depth,
    Top,
    Imbalance,
}

// The kind that a code stands for: `D`, `T` or `I`.
impl TryFrom<u8> for KindCode {
    type Error = UnknownCode;

    ghost try_from_gives = { IsRead kind_code kinds };

    fn try_from(code: u8) -> Result<KindCode, UnknownCode> {
        match code {
            b'D' => Ok(KindCode::Depth),
            b'T' => Ok(KindCode::Top),
            b'I' => Ok(KindCode::Imbalance),
            _ => Err(UnknownCode),
        }
    }
}

// The byte that stands for it.
impl From<KindCode> for u8 {
    ghost from_gives = { λ case byte. byte ≡ kind_code case };

    fn from(kind: KindCode) -> u8 {
        match kind {
            KindCode::Depth => b'D',
            KindCode::Top => b'T',
            KindCode::Imbalance => b'I',
        }
    }
}
