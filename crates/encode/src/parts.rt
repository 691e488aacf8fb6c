// The parts that packets and messages are written from.
ghost use Rattle.std.specs.Prelude.{◌≡◌, ◌+◌, ◌^◌, ◌<◌, ◌≤◌, ◌++◌, length};
ghost use Rattle.codes.specs.Refusals.{answered};
ghost use Rattle.encode.specs.Encode.{header_bytes, named_bytes};
ghost use Rattle.encode.specs.Writing.{put_answer, put};

use codes::refusal::Refusal;
use messages::numbers::HEADER_SIZE;
use messages::symbol::Symbol;

// The first eight bytes: of a message with its stamp last, of a packet with its number.
pub(crate) fn header_bytes(len: u16, kind: u8, subscription: u8, last: u32) -> [u8; 8]
    ensures bytes { result ≡ header_bytes len kind subscription last }
    ensures typed { last < 2 ^ 32 }
{
    let [l0, l1] = len.to_be_bytes();
    let [b0, b1, b2, b3] = last.to_be_bytes();
    [l0, l1, kind, subscription, b0, b1, b2, b3]
}

// A message's bytes from 8 to 39: its number, reserved bytes, its symbol.
pub(crate) fn named_bytes(number: u32, symbol: Symbol) -> [u8; 32]
    ensures bytes { result ≡ named_bytes number symbol }
    ensures typed { (number < 2 ^ 32) × (length symbol ≡ 8) }
{
    let [n0, n1, n2, n3] = number.to_be_bytes();
    let [s0, s1, s2, s3, s4, s5, s6, s7] = symbol;
    [
        n0, n1, n2, n3, 0, 0, 0, 0, 0, 0, 0, 0, 0, 0, 0, 0, 0, 0, 0, 0, 0, 0, 0, 0, s0, s1, s2, s3,
        s4, s5, s6, s7,
    ]
}

// The parts of a message, one behind the other: its header, its bytes from 8 to 39, and the TAIL bytes from 40 on.
// Taken apart at once, so nobody compares or prints it.
#[derive(Clone, Copy)]
pub(crate) struct Parts<const TAIL: usize> {
    pub(crate) header: [u8; 8],
    pub(crate) named: [u8; 32],
    pub(crate) tail: [u8; TAIL],
}

// Puts three parts, one after the other, at the front of a buffer, or refuses where it has no room for them.
pub(crate) fn put_parts(
    header: &[u8; 8],
    middle: &[u8],
    tail: &[u8],
    out: &mut [u8],
) -> Result<usize, Refusal>
    requires { length middle.now + length tail.now ≤ 8184 }
    ensures answer { answered (λ n. n) result ≡ put_answer (length (header.now ++ middle.now ++ tail.now)) out.old }
    ensures after { out.new ≡ put (header.now ++ middle.now ++ tail.now) out.old }
{
    let end = HEADER_SIZE + middle.len();
    let length = end + tail.len();
    if length > out.len() {
        return Err(Refusal::BufferTooShort);
    }
    out[0..8].copy_from_slice(header);
    out[8..end].copy_from_slice(middle);
    out[end..length].copy_from_slice(tail);
    Ok(length)
}
