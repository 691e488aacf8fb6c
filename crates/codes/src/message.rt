// The code of a message: its type.
ghost use Rattle.std.specs.Prelude.{◌≡◌};
ghost use Rattle.codes.specs.Codes.{IsRead, message_types, message_code};

use crate::unknown::UnknownCode;

// What a message is about.
#[derive(Clone, Copy, Debug, PartialEq, Eq)]
pub enum MessageType {
    Quote,
    Imbalance,
    Event,
}

// The type that a code stands for: `q`, `i` or `v`.
impl TryFrom<u8> for MessageType {
    type Error = UnknownCode;

    ghost try_from_gives = { IsRead message_code message_types };

    fn try_from(code: u8) -> Result<MessageType, UnknownCode> {
        match code {
            b'q' => Ok(MessageType::Quote),
            b'i' => Ok(MessageType::Imbalance),
            b'v' => Ok(MessageType::Event),
            _ => Err(UnknownCode),
        }
    }
}

// The byte that stands for it.
impl From<MessageType> for u8 {
    ghost from_gives = { λ case byte. byte ≡ message_code case };

    fn from(kind: MessageType) -> u8 {
        match kind {
            MessageType::Quote => b'q',
            MessageType::Imbalance => b'i',
            MessageType::Event => b'v',
        }
    }
}
