// The packets of a session file, one after the other.
ghost use Rattle.std.specs.Prelude.{◌≡◌};
ghost use Rattle.std.specs.List.{range_with_len};
ghost use Rattle.std.specs.Option.{option_map};
ghost use Rattle.std.specs.Iterator.{YieldsFirstRef, item_count};
ghost use Rattle.sessionfile.specs.Entries.{pointed_at, readable, pending};

use crate::header::FileHeader;
use feed::packet::LONGEST_PACKET;
use messages::numbers::{HEADER_SIZE, array_at};

// The length of a packet offset.
pub(crate) const OFFSET_SIZE: usize = 4;

// The packet that the offset at a place points at, where both are wholly inside and its length can be one.
fn packet_of(bytes: &[u8], place: usize) -> Option<&[u8]>
    ensures { option_map (λ x. x.now) result ≡ pointed_at bytes.now place }
{
    let at = u32::from_be_bytes(*array_at(bytes, place)?) as usize;
    let length = u16::from_be_bytes(*array_at(bytes, at)?) as usize;
    if length < HEADER_SIZE || length > LONGEST_PACKET {
        return None;
    }
    bytes.get(at..at + length)
}

// What is left of a file's packets.
#[derive(Drop)]
pub struct Entries<'a> {
    bytes: &'a [u8],
    offsets: u32,
    next: u32,
    packets: u32,
}

impl<'a> Entries<'a> {
    // The packets of a file, by its header.
    pub(crate) fn new(bytes: &'a [u8], header: FileHeader) -> Entries<'a>
        ensures { pending result ≡ readable bytes.now header.offsets (range_with_len 0 header.packets) }
    {
        Entries {
            bytes,
            offsets: header.offsets,
            next: 0,
            packets: header.packets,
        }
    }
}

impl<'a> Iterator for Entries<'a> {
    type Item = &'a [u8];

    ghost next_gives = { YieldsFirstRef pending };

    ghost remaining = { item_count pending };

    // An index of its own, which steps only past an offset that points at a packet: nothing comes after None. A range
    // steps past any, and would have to be put back.
    fn next(&mut self) -> Option<&'a [u8]> {
        if self.next >= self.packets {
            return None;
        }
        let place = self.offsets as usize + OFFSET_SIZE * self.next as usize;
        let packet = packet_of(self.bytes, place)?;
        self.next += 1;
        Some(packet)
    }
}
