// The code of a packet: its type.
ghost use Rattle.std.specs.Prelude.{◌≡◌};
ghost use Rattle.codes.specs.Codes.{IsRead, packet_types, packet_code};

use crate::unknown::UnknownCode;

// What a packet is.
#[derive(Clone, Copy, Debug, PartialEq, Eq)]
pub enum PacketType {
    // M: it carries messages, and the numbers of these packets go up by one.
    Messages,
    // B: it carries none, and names the last M packet sent.
    Heartbeat,
}

// The type that a code stands for: `M` or `B`.
impl TryFrom<u8> for PacketType {
    type Error = UnknownCode;

    ghost try_from_gives = { IsRead packet_code packet_types };

    fn try_from(code: u8) -> Result<PacketType, UnknownCode> {
        match code {
            b'M' => Ok(PacketType::Messages),
            b'B' => Ok(PacketType::Heartbeat),
            _ => Err(UnknownCode),
        }
    }
}

// The byte that stands for it.
impl From<PacketType> for u8 {
    ghost from_gives = { λ case byte. byte ≡ packet_code case };

    fn from(kind: PacketType) -> u8 {
        match kind {
            PacketType::Messages => b'M',
            PacketType::Heartbeat => b'B',
        }
    }
}
