// A session file over shared bytes.
ghost use Rattle.std.specs.Prelude.{◌≡◌, ℕ, ◌<◌, ◌≤◌, true, ◌↔◌, length, IfSome, is_ok, IfOk, None};
ghost use Rattle.std.specs.Option.{option_map};
ghost use Rattle.codes.specs.Refusals.{answered, refusal_of, placed};
ghost use Rattle.messages.specs.Wire.{byte};
ghost use Rattle.sessionfile.specs.Layout.{WellFormed};
ghost use Rattle.sessionfile.specs.Files.{header_of, packet_offsets, symbol_fields, first_fault, fault, file_verdict, symbols_inside};

use crate::entries::{Entries, OFFSET_SIZE};
use crate::header::FileHeader;
use codes::refusal::Refusal;
use messages::symbol::{Symbol, first_bad};
use replay::store::{ReplayStore, is_packet};

// The length of a symbol's field.
const SYMBOL_SIZE: usize = 8;

// A file that was opened: its header was read, and no field of it is at fault. (Nobody compares or prints a file as a
// whole, so it derives no more.)
#[derive(Clone, Copy)]
pub struct SessionFile<'a> {
    bytes: &'a [u8],
    header: FileHeader,
    ghost read: { header ≡ header_of bytes.now },
    ghost sound: { fault bytes.now ≡ None },
}

impl<'a> SessionFile<'a> {
    ghost use Rattle.replay.specs.Stores.{holding};
    ghost use Rattle.sessionfile.specs.Entries.{entries, symbols, pending};

    // Checks the whole file: refusal 13 at the first field at fault, of the header, then of the packet offsets, then of
    // the symbols.
    pub fn open(bytes: &'a [u8]) -> Result<SessionFile<'a>, Refusal>
        ensures verdict { answered (λ f. f.header) result ≡ file_verdict bytes.now }
        ensures law { (is_ok result ≡ true) ↔ WellFormed bytes.now }
        ensures bytes { IfOk result (λ f. f.bytes.now ≡ bytes.now) }
        ensures holds { IfOk result (λ f. (number : ℕ) → ⟦<SessionFile<'a> as ReplayStore>⟧.held f number ≡ holding (byte bytes.now 10) (entries bytes.now) number) }
    {
        let header = FileHeader::read(bytes)?;
        check_packets(bytes, header)?;
        check_symbols(bytes, header)?;
        Ok(SessionFile { bytes, header })
    }

    // The header that was checked.
    pub fn header(self) -> FileHeader
        ensures { result ≡ self.entry.header }
    {
        self.header
    }

    // The packets, in the order of their offsets.
    pub fn entries(self) -> Entries<'a>
        ensures { pending result ≡ entries self.entry.bytes.now }
    {
        Entries::new(self.bytes, self.header)
    }

    // The symbols, in the order of the file.
    pub fn symbols(self) -> &'a [Symbol]
        ensures { result.now ≡ symbols self.entry.bytes.now }
    {
        symbols_inside(self.bytes, self.header)
    }

    // The first packet of type M with the file's subscription and this number, as a part of the file.
    pub fn packet(self, number: u32) -> Option<&'a [u8]>
        ensures finds { option_map (λ x. x.now) result ≡ holding self.entry.header.subscription (entries self.entry.bytes.now) number }
        ensures short { IfSome result (λ p. length p.now ≤ 8192) }
    {
        let subscription = self.header.subscription;
        self.entries()
            .find(|packet| is_packet(packet, subscription, number))
    }
}

// The checks take a file's bytes and header: a SessionFile, which has both, is made only once they have passed, and a
// struct for two values in three functions would be no plainer.

// Whether each packet offset points at a packet, else refusal 13 at the first that does not.
fn check_packets(bytes: &[u8], header: FileHeader) -> Result<(), Refusal>
    ensures { refusal_of result ≡ option_map (placed 13) (first_fault bytes.now (packet_offsets bytes.now header.offsets header.packets)) }
{
    let good = Entries::new(bytes, header).count();
    if good < header.packets as usize {
        return Err(Refusal::BrokenFile(header.offsets as usize + OFFSET_SIZE * good));
    }
    Ok(())
}

// Whether the symbols are inside, well formed and distinct, else refusal 13 at the first that is not.
fn check_symbols(bytes: &[u8], header: FileHeader) -> Result<(), Refusal>
    ensures { refusal_of result ≡ option_map (placed 13) (first_fault bytes.now (symbol_fields bytes.now header.names header.symbols)) }
{
    let symbols = symbols_inside(bytes, header);
    let good = first_bad(symbols).unwrap_or(symbols.len());
    if good < header.symbols as usize {
        return Err(Refusal::BrokenFile(header.names as usize + SYMBOL_SIZE * good));
    }
    Ok(())
}

// The symbols that are wholly inside the file.
fn symbols_inside(bytes: &[u8], header: FileHeader) -> &[Symbol]
    ensures { result.now ≡ symbols_inside bytes.now header.names header.symbols }
{
    let (symbols, _) = bytes
        .get(header.names as usize..)
        .unwrap_or(&[])
        .as_chunks::<SYMBOL_SIZE>();
    let inside = symbols.len().min(header.symbols as usize);
    &symbols[..inside]
}
