// A cell of a window's area, with a packet at its front.
ghost use Rattle.std.specs.Prelude.{◌≡◌};
ghost use Rattle.window.specs.Windows.{front};

use feed::packet::LONGEST_PACKET;

// A cell has room for the longest packet.
pub(crate) const CELL: usize = LONGEST_PACKET;

// The packet at the front of a cell, by its length field.
pub(crate) fn packet_in(cell: &[u8; CELL]) -> &[u8]
    ensures { result.now ≡ front cell.now }
{
    let said = u16::from_be_bytes([cell[0], cell[1]]) as usize;
    &cell[..said.min(CELL)]
}
