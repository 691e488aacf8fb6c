// The packets of a feed, where they follow one another.
ghost use Rattle.std.specs.Prelude.{◌≡◌, ◌-◌, length};
ghost use Rattle.std.specs.Iterator.{at_most};
ghost use Rattle.decode.specs.Lengths.{packet_length};
ghost use Rattle.decode.specs.Packets.{Next};

use codes::refusal::Refusal;
use feed::packet::LONGEST_PACKET;
use messages::numbers::HEADER_SIZE;

// How long the first packet of `bytes` says it is, where that can be right: 8 to 8,192 bytes, and all of them there.
fn packet_length(bytes: &[u8]) -> Option<usize>
    ensures { result ≡ packet_length bytes.now }
{
    let said = u16::from_be_bytes(*bytes.first_chunk()?) as usize;
    if said >= HEADER_SIZE && said <= LONGEST_PACKET && said <= bytes.len() {
        Some(said)
    } else {
        None
    }
}

// What is left of a feed: each packet with its offset, up to refusal 1 where a length cannot be right.
#[derive(Drop)]
pub struct Packets<'a> {
    bytes: &'a [u8],
    at: usize,
}

impl<'a> Packets<'a> {
    pub fn new(bytes: &'a [u8]) -> Packets<'a>
        ensures feed { result.bytes.now ≡ bytes.now }
        ensures start { result.at ≡ 0 }
    {
        Packets { bytes, at: 0 }
    }
}

impl<'a> Iterator for Packets<'a> {
    type Item = (usize, Result<&'a [u8], Refusal>);

    ghost next_gives = { Next };

    ghost remaining = { λ s. at_most (length s.bytes.now - s.at) };

    fn next(&mut self) -> Option<(usize, Result<&'a [u8], Refusal>)> {
        let bytes = self.bytes;
        let at = self.at;
        if at >= bytes.len() {
            return None;
        }
        let rest = &bytes[at..];
        match packet_length(rest) {
            Some(length) => {
                self.at = at + length;
                Some((at, Ok(&rest[..length])))
            }
            None => {
                self.at = bytes.len();
                Some((at, Err(Refusal::PacketLength)))
            }
        }
    }
}
