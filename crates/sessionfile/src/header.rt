// The header of a session file.
ghost use Rattle.std.specs.Prelude.{◌≡◌, ◌+◌, length, if◌then◌else◌, Ok, Err, nat_le};
ghost use Rattle.codes.specs.Refusals.{answered, placed};
ghost use Rattle.messages.specs.Wire.{part};
ghost use Rattle.sessionfile.specs.Files.{header_fields, first_fault, unless, header_of};

use codes::kind::KindCode;
use codes::refusal::Refusal;
use messages::numbers::array_at;
use messages::symbol::MOST_SYMBOLS;

const MOST_PACKETS: u32 = 65_535;

#[derive(Clone, Copy, Debug, PartialEq, Eq)]
pub struct FileHeader {
    // How many packet offsets there are, and where they start.
    pub packets: u32,
    pub offsets: u32,
    // How many symbols there are.
    pub symbols: u16,
    pub subscription: u8,
    pub kind: KindCode,
    // Where the symbols start.
    pub names: u32,
}

impl FileHeader {
    // The header of a file, or refusal 13 at its first field at fault.
    pub fn read(bytes: &[u8]) -> Result<FileHeader, Refusal>
        ensures { answered (λ h. h) result ≡ unless (first_fault bytes.now (header_fields bytes.now)) (header_of bytes.now) }
    {
        let packets = u32::from_be_bytes(field_at(bytes, 0)?);
        if packets > MOST_PACKETS {
            return Err(Refusal::BrokenFile(0));
        }
        let offsets = u32::from_be_bytes(field_at(bytes, 4)?);
        let symbols = u16::from_be_bytes(field_at(bytes, 8)?);
        if symbols as usize > MOST_SYMBOLS {
            return Err(Refusal::BrokenFile(8));
        }
        let [subscription] = field_at::<1>(bytes, 10)?;
        let [code] = field_at::<1>(bytes, 11)?;
        let kind = KindCode::try_from(code).map_err(|_| Refusal::BrokenFile(11))?;
        let names = u32::from_be_bytes(field_at(bytes, 12)?);
        Ok(FileHeader {
            packets,
            offsets,
            symbols,
            subscription,
            kind,
            names,
        })
    }
}

// The bytes of the field at an offset, or refusal 13 there.
fn field_at<const N: usize>(bytes: &[u8], at: usize) -> Result<[u8; N], Refusal>
    ensures { answered (λ x. x) result ≡ (if nat_le (at + N) (length bytes.now) then Ok (part bytes.now at N) else Err (placed 13 at)) }
{
    array_at(bytes, at).copied().ok_or(Refusal::BrokenFile(at))
}
