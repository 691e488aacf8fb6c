// Packets read: their lengths, headers and messages.
use crate::made::{EVENT, QUOTE, told};
use feed::packet::Packet;
use std::alloc::{AllocError, Global};
use std::test::Fail;

// How many messages a packet has, or its refusal.
fn count(bytes: &[u8]) -> Result<usize, (u8, Option<usize>)> {
    let packet = told(Packet::read(bytes, 11))?;
    let mut count = 0usize;
    for item in packet.messages() {
        told(item)?;
        count = count.saturating_add(1);
    }
    Ok(count)
}

// A header that says `length`, so many events, and more bytes.
fn packet(
    heap: Global,
    length: u16,
    kind: u8,
    events: usize,
    more: &[u8],
) -> Result<Vec<u8>, AllocError> {
    let [high, low] = length.to_be_bytes();
    let mut bytes = Vec::from_slice(heap, &[high, low, kind, 11, 0, 0, 0, 7])?;
    for _ in 0..events {
        bytes.extend_from_slice(&EVENT)?;
    }
    bytes.extend_from_slice(more)?;
    Ok(bytes)
}

#[test]
fn lengths(rt: HostRuntime) -> Result<(), Fail> {
    let table = [
        (8u16, b'B', 0usize, 0usize, Ok(0)),
        (9, b'B', 0, 1, Err((5, Some(8)))),
        (8, b'M', 0, 0, Err((5, Some(8)))),
        (52, b'M', 1, 0, Ok(1)),
        (51, b'M', 1, 0, Err((1, None))),
        (53, b'M', 1, 0, Err((1, None))),
        (53, b'M', 1, 1, Err((5, Some(52)))),
        (59, b'M', 1, 7, Err((5, Some(52)))),
        (8192, b'M', 186, 0, Ok(186)),
        (8193, b'M', 186, 1, Err((1, None))),
        (52, b'N', 1, 0, Err((3, None))),
        (51, b'N', 1, 0, Err((1, None))),
    ];
    for (length, kind, events, zeros, expected) in table {
        let more = [0u8; 8];
        assert!(rt; zeros <= 8);
        let bytes = packet(rt.alloc(), length, kind, events, &more[0..zeros])?;
        assert_eq!(rt; count(bytes.as_slice()), expected);
    }
    Ok(())
}

// A packet of two quotes, numbered by its bytes 4 to 7.
fn two_quotes(heap: Global) -> Result<Vec<u8>, AllocError> {
    let mut bytes = packet(heap, 112, b'M', 0, &QUOTE)?;
    bytes.extend_from_slice(&QUOTE)?;
    Ok(bytes)
}

#[test]
fn headers(rt: HostRuntime) -> Result<(), Fail> {
    let table = [
        (0u8, 0u8, Err((4, None))),
        (0, 1, Ok(2)),
        (255, 254, Ok(2)),
        (255, 255, Err((4, None))),
    ];
    for (high, low, expected) in table {
        let mut bytes = two_quotes(rt.alloc())?;
        assert!(rt; bytes.len() == 112);
        bytes[4] = high;
        bytes[5] = high;
        bytes[6] = high;
        bytes[7] = low;
        assert_eq!(rt; count(bytes.as_slice()), expected);
    }
    let heartbeats = [
        (0u8, 0u8, Ok(0usize)),
        (255, 254, Ok(0)),
        (255, 255, Err((4, None))),
    ];
    for (high, low, expected) in heartbeats {
        assert_eq!(rt; count(&[0, 8, b'B', 11, high, high, high, low]), expected);
    }
    Ok(())
}

// The uppermost row decides.
#[test]
fn rows_in_order(rt: HostRuntime) {
    assert_eq!(rt; count(&[]), Err((1, None)));
    assert_eq!(rt; count(&[0, 7, b'B', 11, 0, 0, 0]), Err((1, None)));
    assert_eq!(rt;
        count(&[0, 9, b'B', 12, 255, 255, 255, 255]),
        Err((1, None))
    );
    assert_eq!(rt;
        count(&[0, 8, b'X', 12, 255, 255, 255, 255]),
        Err((2, None))
    );
    assert_eq!(rt;
        count(&[0, 8, b'X', 11, 255, 255, 255, 255]),
        Err((3, None))
    );
    assert_eq!(rt;
        count(&[0, 9, b'B', 11, 255, 255, 255, 255, 0]),
        Err((4, None))
    );
    assert_eq!(rt; count(&[0, 9, b'B', 11, 0, 0, 0, 1, 0]), Err((5, Some(8))));
}

// A subscription that differs inside breaks that message.
#[test]
fn other_subscription_inside(rt: HostRuntime) -> Result<(), Fail> {
    let mut bytes = two_quotes(rt.alloc())?;
    assert!(rt; bytes.len() == 112);
    bytes[11] = 12;
    assert_eq!(rt; count(bytes.as_slice()), Err((5, Some(8))));
    bytes[11] = 11;
    bytes[63] = 12;
    assert_eq!(rt; count(bytes.as_slice()), Err((5, Some(60))));
    Ok(())
}

// Where the message of an index stands, and how long it is.
fn place(packet: Packet<'_>, index: usize) -> Option<(usize, usize)> {
    let (offset, message) = packet.message(index)?.ok()?;
    Some((offset, message.bytes().len()))
}

#[test]
fn messages_in_order(rt: HostRuntime) -> Result<(), Fail> {
    let mut bytes = packet(rt.alloc(), 148, b'M', 1, &QUOTE)?;
    bytes.extend_from_slice(&EVENT)?;
    let packet = Packet::read(bytes.as_slice(), 11)?;
    assert_eq!(rt; packet.header().number, 7);
    for (index, expected) in [(0usize, (8usize, 44usize)), (1, (52, 52)), (2, (104, 44))] {
        assert_eq!(rt; place(packet, index), Some(expected));
    }
    assert_eq!(rt; place(packet, 3), None);
    Ok(())
}
