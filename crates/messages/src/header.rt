// The eight bytes that packets and messages start with.
ghost use Rattle.std.specs.Prelude.{◌≡◌};
ghost use Rattle.messages.specs.Header.{header_at_front};

use crate::numbers::array_at;

// Its fields, as they stand: nothing is judged yet.
#[derive(Clone, Copy, Debug, PartialEq, Eq)]
pub struct RawHeader {
    // Of the whole packet or message, in bytes.
    pub length: u16,
    pub code: u8,
    pub subscription: u8,
    // A packet's number, a message's stamp.
    pub last: u32,
}

impl RawHeader {
    // The header at the front of some bytes, where all of it is there.
    pub fn read(bytes: &[u8]) -> Option<RawHeader>
        ensures { result ≡ header_at_front bytes.now }
    {
        let [l0, l1, code, subscription, n0, n1, n2, n3] = *array_at::<8>(bytes, 0)?;
        Some(RawHeader {
            length: u16::from_be_bytes([l0, l1]),
            code,
            subscription,
            last: u32::from_be_bytes([n0, n1, n2, n3]),
        })
    }
}
