// Messages read: every field at its limits and one past them.
use crate::made::{EVENT, IMBALANCE, QUOTE, told};
use messages::fields::EventForm;
use messages::message::Message;
use messages::read::read_message;
use std::process::Abort;
use std::test::Fail;

// Whether a message is read; if not, it is refused with 5 at its offset.
fn reads(rt: &impl Abort, bytes: &[u8]) -> Result<bool, Fail> {
    match told(read_message(bytes, 11, 8)) {
        Ok(_) => Ok(true),
        Err(refused) => {
            assert_eq!(rt; refused, (5, Some(8)));
            Ok(false)
        }
    }
}

// The same for a message with one byte changed.
fn reads_with<const LEN: usize>(
    rt: &impl Abort,
    message: [u8; LEN],
    at: usize,
    value: u8,
) -> Result<bool, Fail> {
    let mut bytes = message;
    if let Some(byte) = bytes.get_mut(at) {
        *byte = value;
    }
    reads(rt, &bytes)
}

fn event_with(rt: &impl Abort, code: u8, reset: u8) -> Result<bool, Fail> {
    let mut bytes = EVENT;
    bytes[42] = code;
    bytes[43] = reset;
    reads(rt, &bytes)
}

// A number with these four bytes.
fn numbered(rt: &impl Abort, a: u8, b: u8, c: u8, d: u8) -> Result<bool, Fail> {
    let mut bytes = QUOTE;
    bytes[8] = a;
    bytes[9] = b;
    bytes[10] = c;
    bytes[11] = d;
    reads(rt, &bytes)
}

#[test]
fn quotes(rt: HostRuntime) -> Result<(), Fail> {
    let table = [
        (1usize, 51u8, false),
        (1, 53, false),
        (2, b'Q', false),
        (3, 12, false),
        (4, 255, true),
        (12, 255, true),
        (31, 255, true),
        (32, 32, false),
        (32, 33, true),
        (32, 126, true),
        (32, 127, false),
        (32, 0, false),
        (33, 0, false),
        (38, 1, false),
        (39, b'A', false),
        (40, 255, true),
        (41, b'S', true),
        (41, b'A', false),
        (42, 0, false),
        (42, 5, true),
        (42, 6, false),
        (43, 0, false),
        (43, 1, true),
        (43, 6, false),
        (44, 255, true),
        (51, 255, true),
    ];
    for (at, value, expected) in table {
        assert_eq!(rt; reads_with(&rt, QUOTE, at, value)?, expected);
    }
    assert!(rt; !numbered(&rt, 0, 0, 0, 0)?);
    assert!(rt; numbered(&rt, 255, 255, 255, 254)?);
    assert!(rt; !numbered(&rt, 255, 255, 255, 255)?);
    Ok(())
}

#[test]
fn imbalances(rt: HostRuntime) -> Result<(), Fail> {
    // 9 * 256 + 96 is 2,400
    let table = [
        (41usize, b'O', true),
        (41, b'M', true),
        (41, b'H', true),
        (41, b'C', true),
        (41, b'B', false),
        (42, 8, true),
        (42, 9, false),
        (43, 255, true),
        (59, 255, true),
    ];
    for (at, value, expected) in table {
        assert_eq!(rt; reads_with(&rt, IMBALANCE, at, value)?, expected);
    }
    let mut bytes = IMBALANCE;
    bytes[42] = 0;
    bytes[43] = 0;
    assert!(rt; reads(&rt, &bytes)?);
    bytes[42] = 9;
    bytes[43] = 96;
    assert!(rt; reads(&rt, &bytes)?);
    bytes[43] = 97;
    assert!(rt; !reads(&rt, &bytes)?);
    Ok(())
}

#[test]
fn events(rt: HostRuntime) -> Result<(), Fail> {
    for code in *b"ABCLNOSTUXosux" {
        assert!(rt; event_with(&rt, code, b'C')?);
        assert!(rt; !event_with(&rt, code, b'R')?);
    }
    for code in *b"DEFGHIJKMPQRVWYZabcilt" {
        assert!(rt; !event_with(&rt, code, b'C')?);
    }
    assert!(rt; event_with(&rt, b'I', b'R')?);
    assert!(rt; !event_with(&rt, b'I', b'r')?);
    Ok(())
}

#[test]
fn symbol_of_eight_bytes(rt: HostRuntime) -> Result<(), Fail> {
    let mut bytes = QUOTE;
    bytes[37] = b'Z';
    bytes[38] = b'Z';
    bytes[39] = b'Z';
    assert!(rt; reads(&rt, &bytes)?);
    bytes[39] = 0;
    assert!(rt; reads(&rt, &bytes)?);
    bytes[36] = 0;
    assert!(rt; !reads(&rt, &bytes)?);
    Ok(())
}

// Number and symbol of the reset and of an underlying's event are not read.
#[test]
fn events_without_a_number(rt: HostRuntime) -> Result<(), Fail> {
    for (code, reset, expected) in [(b'I', b'R', true), (b'o', b'C', true), (b'O', b'C', false)] {
        let mut bytes = EVENT;
        bytes[11] = 0;
        bytes[32] = 0;
        bytes[42] = code;
        bytes[43] = reset;
        assert_eq!(rt; reads(&rt, &bytes)?, expected);
    }
    Ok(())
}

#[test]
fn cut_short(rt: HostRuntime) -> Result<(), Fail> {
    for message in [QUOTE.as_slice(), IMBALANCE.as_slice(), EVENT.as_slice()] {
        for length in 0..message.len() {
            assert!(rt; !reads(&rt, &message[..length])?);
        }
    }
    Ok(())
}

#[test]
fn fields(rt: HostRuntime) -> Result<(), Fail> {
    if let Ok(Message::Quote(quote)) = read_message(&QUOTE, 11, 8) {
        let q = quote.fields();
        assert_eq!(rt;
            (q.stamp, q.number, q.contracts, q.price),
            (34_200_001, 1, 10, 135_000)
        );
        assert_eq!(rt;
            (u8::from(q.side), u8::from(q.insert), u8::from(q.delete)),
            (b'B', 1, 5)
        );
        assert!(rt; q.symbol == *b"MSQAJ\0\0\0");
    } else {
        return Err(Fail::new("no quote"));
    }
    if let Ok(Message::Imbalance(imbalance)) = read_message(&IMBALANCE, 11, 8) {
        let i = imbalance.fields();
        assert_eq!(rt;
            (i.stamp, i.number, u8::from(i.auction), i.time),
            (34_200_002, 2, b'O', 930)
        );
        assert_eq!(rt;
            (i.contracts, i.price, i.total, i.market),
            (20, 12_500, 7, 3)
        );
    } else {
        return Err(Fail::new("no imbalance"));
    }
    match read_message(&EVENT, 11, 8) {
        Ok(Message::Event(event)) => match event.fields().form {
            EventForm::Numbered { number, code, .. } => {
                assert_eq!(rt; (number, u8::from(code)), (3, b'C'));
                Ok(())
            },
            _ => Err(Fail::new("no number")),
        },
        _ => Err(Fail::new("no event")),
    }
}
