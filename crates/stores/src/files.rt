// Session files: each fault at its place, and the file as a store.
use codes::refusal::Refusal;
use replay::first_else::FirstElse;
use replay::store::ReplayStore;
use sessionfile::file::SessionFile;
use std::test::Fail;
use window::window::Window;

// Two packets, whose offsets stand at 16, and two symbols, A and B, at 24.
const FILE: [u8; 56] = *b"\
\0\0\0\x02\0\0\0\x10\0\x02\x0bD\0\0\0\x18\
\0\0\0\x28\0\0\0\x30\
A\0\0\0\0\0\0\0B\0\0\0\0\0\0\0\
\0\x08M\x0b\0\0\0\x01\
\0\x08M\x0b\0\0\0\x02";

// The place of the fault that a file is refused for with 13.
fn fault(bytes: &[u8]) -> Option<usize> {
    match SessionFile::open(bytes) {
        Err(Refusal::BrokenFile(place)) => Some(place),
        _ => None,
    }
}

// The file with one byte changed.
fn changed(at: usize, byte: u8) -> Option<usize> {
    let mut bytes = FILE;
    if let Some(place) = bytes.get_mut(at) {
        *place = byte;
    }
    fault(&bytes)
}

#[test]
fn faults(rt: HostRuntime) {
    let table = [
        // counts: 16,777,218 and 65,538 packets are too many, none is good; 1,026 symbols are too many
        (0usize, 1u8, Some(0usize)),
        (1, 1, Some(0)),
        (3, 0, None),
        (8, 4, Some(8)),
        (9, 0, None),
        // the kind
        (11, b'T', None),
        (11, b'I', None),
        (11, b'd', Some(11)),
        // a packet offset at the end of the file, one byte and nine bytes before it, and past it
        (23, 56, Some(20)),
        (23, 55, Some(20)),
        (23, 47, Some(20)),
        (20, 255, Some(20)),
        // a table of offsets past the end, and one that reaches past it
        (4, 1, Some(16_777_232)),
        (7, 53, Some(53)),
        // a packet of 7 bytes, one of 8,200, and one that ends past the end; its type is not checked
        (41, 7, Some(16)),
        (40, 32, Some(16)),
        (49, 9, Some(20)),
        (50, b'?', None),
        // symbols: none, not printable, a byte after a null, the first once more, and one past the end
        (24, 0, Some(24)),
        (32, 32, Some(32)),
        (26, b'C', Some(24)),
        (32, b'A', Some(32)),
        (15, 49, Some(49)),
    ];
    for (at, byte, expected) in table {
        assert_eq!(rt; changed(at, byte), expected);
    }
}

// A cut file is at fault at the first field that is not all there.
#[test]
fn cut(rt: HostRuntime) {
    let table = [
        (0usize, Some(0usize)),
        (3, Some(0)),
        (4, Some(4)),
        (7, Some(4)),
        (8, Some(8)),
        (9, Some(8)),
        (10, Some(10)),
        (11, Some(11)),
        (12, Some(12)),
        (15, Some(12)),
        (16, Some(16)),
        (47, Some(16)),
        (55, Some(20)),
        (56, None),
    ];
    for (length, expected) in table {
        assert!(rt; length <= 56);
        assert_eq!(rt; fault(&FILE[..length]), expected);
    }
}

// Offsets near 4,294,967,295: of the packet offsets, of a packet, of the symbols, and where their count is 0.
#[test]
fn large_offsets(rt: HostRuntime) {
    let table = [
        (4usize, 2u8, 2u8, Some(4_294_967_295usize)),
        (16, 2, 2, Some(16)),
        (12, 2, 2, Some(4_294_967_295)),
        (4, 0, 2, None),
        (12, 2, 0, None),
    ];
    for (at, packets, symbols, expected) in table {
        let mut bytes = FILE;
        assert!(rt; at <= 52);
        bytes[at..at + 4].fill(255);
        bytes[3] = packets;
        bytes[9] = symbols;
        assert_eq!(rt; fault(&bytes), expected);
    }
}

// Packets 5 of the file: a heartbeat, one of another subscription, one of 9 bytes and one of 8. Only the third is held.
const FIVES: [u8; 65] = *b"\
\0\0\0\x04\0\0\0\x10\0\0\x0bT\xff\xff\xff\xff\
\0\0\0\x20\0\0\0\x28\0\0\0\x30\0\0\0\x39\
\0\x08B\x0b\0\0\0\x05\
\0\x08M\x0c\0\0\0\x05\
\0\x09M\x0b\0\0\0\x05M\
\0\x08M\x0b\0\0\0\x05";

// What a fetch into so many ones answers, a refusal by its returned number; and the ninth byte after it.
fn fetched<S: ReplayStore>(store: &S, number: u32, room: usize) -> (Result<Option<usize>, u8>, u8) {
    let mut buffer = [1u8; 8193];
    let answer = store.fetch(number, &mut buffer[..room.min(8193)]);
    (answer.map_err(Refusal::number), buffer[8])
}

#[test]
fn file_as_store(rt: HostRuntime) -> Result<(), Fail> {
    let file = SessionFile::open(&FIVES)?;
    let table = [
        (5u32, 8192usize, Ok(Some(9usize)), 77u8),
        (5, 8193, Ok(Some(9)), 77),
        (6, 8192, Ok(None), 1),
        (5, 8191, Err(9u8), 1),
        (0, 8191, Err(4), 1),
        (4_294_967_295, 8192, Err(4), 1),
        (4_294_967_294, 8192, Ok(None), 1),
    ];
    for (number, room, expected, ninth) in table {
        let (answer, after) = fetched(&file, number, room);
        assert_eq!(rt; answer, expected);
        assert_eq!(rt; after, ninth);
    }
    let lengths = file.entries().fold(0usize, |digits, entry| {
        digits.saturating_mul(10).saturating_add(entry.len())
    });
    assert_eq!(rt; lengths, 8898);
    Ok(())
}

// The sum of the first letters of a file's symbols.
fn letters(file: SessionFile<'_>) -> u8 {
    file.symbols()
        .iter()
        .fold(0u8, |sum, symbol| sum.saturating_add(symbol[0]))
}

// What a pile of a window and the two files answers.
fn piled(
    window: &Window<'_>,
    first: SessionFile<'_>,
    second: SessionFile<'_>,
    number: u32,
) -> Result<Option<usize>, u8> {
    fetched(
        &FirstElse::new(window, FirstElse::new(first, second)),
        number,
        8192,
    )
    .0
}

// Of three stores the first that holds a packet of the number gives it: a window with 5, and then the two files.
#[test]
fn pile(rt: HostRuntime) -> Result<(), Fail> {
    let first = SessionFile::open(&FILE)?;
    let second = SessionFile::open(&FIVES)?;
    let mut area = [0u8; 8192];
    let mut window = Window::over(&mut area, 11);
    assert!(rt; window.keep(b"\0\x08M\x0b\0\0\0\x05").is_ok());
    for (number, expected) in [(2u32, Ok(Some(8usize))), (5, Ok(Some(8))), (7, Ok(None))] {
        assert_eq!(rt; piled(&window, first, second, number), expected);
    }
    assert_eq!(rt; letters(first), 131);
    Ok(())
}
