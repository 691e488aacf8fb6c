// Messages and packets written, byte by byte, and refused.
use crate::made::{EVENT, IMBALANCE, QUOTE, told};
use codes::auction::Auction;
use codes::event::{SeriesEvent, UnderlyingEvent};
use codes::quote::{Level, Side};
use encode::message::{write_event, write_imbalance, write_quote};
use encode::packet::{write_heartbeat, write_packet};
use messages::fields::{EventFields, EventForm, ImbalanceFields, QuoteFields};
use std::test::Fail;

const SYMBOL: [u8; 8] = *b"MSQAJ\0\0\0";

fn quote(number: u32, symbol: [u8; 8]) -> QuoteFields {
    QuoteFields {
        stamp: 34_200_001,
        number,
        symbol,
        side: Side::Bid,
        insert: Level::First,
        delete: Level::Fifth,
        contracts: 10,
        price: 135_000,
    }
}

fn imbalance(time: u16) -> ImbalanceFields {
    ImbalanceFields {
        stamp: 34_200_002,
        number: 2,
        symbol: SYMBOL,
        auction: Auction::Open,
        time,
        contracts: 20,
        price: 12_500,
        total: 7,
        market: 3,
    }
}

#[test]
fn messages(rt: HostRuntime) {
    let mut out = [170u8; 61];
    assert_eq!(rt; told(write_quote(&quote(1, SYMBOL), 11, &mut out)), Ok(52));
    assert!(rt; &out[0..52] == QUOTE.as_slice());
    assert_eq!(rt; (out[52], out[60]), (170, 170));
    assert_eq!(rt;
        told(write_imbalance(&imbalance(930), 11, &mut out)),
        Ok(60)
    );
    assert!(rt; &out[0..60] == IMBALANCE.as_slice());
    assert_eq!(rt; out[60], 170);
    let form = EventForm::Numbered {
        number: 3,
        symbol: SYMBOL,
        code: SeriesEvent::ClearSeries,
    };
    let event = EventFields {
        stamp: 34_200_003,
        form,
    };
    assert_eq!(rt; told(write_event(&event, 11, &mut out)), Ok(44));
    assert!(rt; &out[0..44] == EVENT.as_slice());
}

// Number and symbol of the reset and of an underlying's event are null.
#[test]
fn events_without_a_number(rt: HostRuntime) {
    let table = [
        (EventForm::Reset, b'I', b'R'),
        (EventForm::Underlying(UnderlyingEvent::Halt), b's', b'C'),
    ];
    for (form, code, reset) in table {
        let mut out = [255u8; 44];
        assert_eq!(rt;
            told(write_event(&EventFields { stamp: 1, form }, 9, &mut out)),
            Ok(44)
        );
        assert!(rt; &out[0..8] == [0, 44, b'v', 9, 0, 0, 0, 1].as_slice());
        assert!(rt; &out[8..42] == [0; 34].as_slice());
        assert_eq!(rt; (out[42], out[43]), (code, reset));
    }
}

// The fields are judged before the room.
#[test]
fn refused_messages(rt: HostRuntime) {
    let mut short = [7u8; 51];
    assert_eq!(rt;
        told(write_quote(&quote(1, SYMBOL), 11, &mut short)),
        Err((9, None))
    );
    assert_eq!(rt;
        told(write_quote(&quote(0, SYMBOL), 11, &mut short)),
        Err((5, Some(0)))
    );
    assert_eq!(rt;
        told(write_quote(&quote(u32::MAX, SYMBOL), 11, &mut short)),
        Err((5, Some(0)))
    );
    assert_eq!(rt;
        told(write_quote(&quote(1, *b"A\0B\0\0\0\0\0"), 11, &mut short)),
        Err((5, Some(0)))
    );
    assert_eq!(rt;
        told(write_quote(&quote(1, [0; 8]), 11, &mut short)),
        Err((5, Some(0)))
    );
    assert_eq!(rt;
        told(write_imbalance(&imbalance(2400), 11, &mut short)),
        Err((9, None))
    );
    assert_eq!(rt;
        told(write_imbalance(&imbalance(2401), 11, &mut short)),
        Err((5, Some(0)))
    );
    assert!(rt; short == [7; 51]);
}

#[test]
fn refused_events(rt: HostRuntime) {
    for (number, symbol) in [(0u32, SYMBOL), (3, [0; 8])] {
        let code = SeriesEvent::ClearBid;
        let form = EventForm::Numbered {
            number,
            symbol,
            code,
        };
        let mut short = [7u8; 43];
        assert_eq!(rt;
            told(write_event(&EventFields { stamp: 1, form }, 11, &mut short)),
            Err((5, Some(0)))
        );
        assert!(rt; short == [7; 43]);
    }
}

#[test]
fn packets(rt: HostRuntime) {
    let mut out = [170u8; 61];
    assert_eq!(rt; told(write_packet(&QUOTE, 258, 11, &mut out)), Ok(60));
    assert!(rt; &out[0..8] == [0, 60, b'M', 11, 0, 0, 1, 2].as_slice());
    assert!(rt; &out[8..60] == QUOTE.as_slice());
    assert_eq!(rt; out[60], 170);
    assert_eq!(rt; told(write_heartbeat(0, 11, &mut out)), Ok(8));
    assert!(rt; &out[0..9] == [0, 8, b'B', 11, 0, 0, 0, 0, 0].as_slice());
}

// 186 events of 44 bytes fill the longest packet.
#[test]
fn longest_packet(rt: HostRuntime) -> Result<(), Fail> {
    let mut joined = Vec::new(rt.alloc());
    for _ in 0..186 {
        joined.extend_from_slice(&EVENT)?;
    }
    let mut out = vec![in rt.alloc(); 7u8; 8193]?;
    assert_eq!(rt;
        told(write_packet(joined.as_slice(), 1, 11, out.as_mut_slice())),
        Ok(8192)
    );
    assert!(rt; out.len() == 8193);
    assert_eq!(rt; (out[0], out[1], out[8191], out[8192]), (32, 0, b'C', 7));
    Ok(())
}

// A second message on another subscription.
#[test]
fn second_message_broken(rt: HostRuntime) {
    let mut joined = [0u8; 104];
    joined[0..52].copy_from_slice(&QUOTE);
    joined[52..104].copy_from_slice(&QUOTE);
    joined[55] = 12;
    let mut out = [0u8; 200];
    assert_eq!(rt;
        told(write_packet(&joined, 1, 11, &mut out)),
        Err((5, Some(60)))
    );
    assert!(rt; out == [0; 200]);
}

#[test]
fn refused_packets(rt: HostRuntime) {
    let long = [0u8; 8185];
    let mut out = [7u8; 59];
    assert_eq!(rt; told(write_packet(&long, 0, 11, &mut out)), Err((1, None)));
    assert_eq!(rt;
        told(write_packet(&long[0..8184], 0, 11, &mut out)),
        Err((4, None))
    );
    assert_eq!(rt;
        told(write_packet(&long[0..8184], 1, 11, &mut out)),
        Err((5, Some(8)))
    );
    assert_eq!(rt; told(write_packet(&[], 1, 11, &mut out)), Err((5, Some(8))));
    assert_eq!(rt;
        told(write_packet(&QUOTE, u32::MAX, 11, &mut out)),
        Err((4, None))
    );
    assert_eq!(rt;
        told(write_packet(&QUOTE, 1, 12, &mut out)),
        Err((5, Some(8)))
    );
    assert_eq!(rt; told(write_packet(&QUOTE, 1, 11, &mut out)), Err((9, None)));
    assert_eq!(rt;
        told(write_heartbeat(u32::MAX, 11, &mut out)),
        Err((4, None))
    );
    assert_eq!(rt;
        told(write_heartbeat(1, 11, &mut out[0..7])),
        Err((9, None))
    );
    assert!(rt; out == [7; 59]);
}
