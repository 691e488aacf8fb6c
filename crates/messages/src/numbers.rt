// Bytes at an offset, and the numbers that M packets and messages carry.
ghost use Rattle.std.specs.Prelude.{◌≡◌, ◌+◌, ◌≤◌, length, if◌then◌else◌, Some, None, nat_le};
ghost use Rattle.std.specs.Option.{option_map};
ghost use Rattle.messages.specs.Wire.{be32, part};
ghost use Rattle.messages.specs.Verdict.{in_range};

// The length of a message's header, and of a packet's.
pub const HEADER_SIZE: usize = 8;

// The largest number of a packet or of a message.
pub const LAST_NUMBER: u32 = 4_294_967_294;

// The N bytes at an offset, where they are wholly inside.
pub fn array_at<const N: usize>(bytes: &[u8], at: usize) -> Option<&[u8; N]>
    ensures { option_map (λ x. x.now) result ≡ (if nat_le (at + N) (length bytes.now) then Some (part bytes.now at N) else None) }
{
    bytes.get(at..)?.first_chunk()
}

// The N bytes at an offset of a message's own bytes, where they are known to be.
pub(crate) fn part<const N: usize>(own: &[u8], at: usize) -> [u8; N]
    requires { at + N ≤ length own.now }
    ensures { result ≡ part own.now at N }
{
    let mut array = [0; N];
    array.copy_from_slice(&own[at..at + N]);
    array
}

// The number in four bytes of a message's own bytes.
pub(crate) fn u32_at(own: &[u8], at: usize) -> u32
    requires { at + 4 ≤ length own.now }
    ensures { result ≡ be32 own.now at }
{
    u32::from_be_bytes(part(own, at))
}

// Whether a number is one that M packets and numbered messages carry.
pub fn in_range(number: u32) -> bool
    ensures { result ≡ in_range number }
{
    (1..=LAST_NUMBER).contains(&number)
}
