// The best level of a side, replaced by a quote.
use crate::made::{QUOTE, told};
use kinds::book::{Book, PriceLevel};
use kinds::kind::Kind;
use kinds::top::Top;
use messages::read::read_message;
use std::process::Abort;

// A bid of 6 with 200 contracts, after a quote with both levels 1.
fn replaced(rt: &impl Abort, price: u8, contracts: u8) -> Book<PriceLevel> {
    let mut bytes = QUOTE;
    bytes[43] = 1;
    bytes[47] = contracts;
    bytes[49] = 0;
    bytes[50] = 0;
    bytes[51] = price;
    let mut book = Top::empty();
    book.bid = PriceLevel {
        price: 6,
        contracts: 200,
    };
    match told(read_message(&bytes, 11, 8)) {
        Ok(quote) => {
            assert!(rt; Top::belongs(&quote));
            Top::step(&mut book, &quote);
        }
        // The quote is good, so this fails and shows the refusal.
        Err(refused) => assert_eq!(rt; refused, (0, None)),
    }
    book
}

#[test]
fn top_bid_replaced(rt: HostRuntime) {
    let book = replaced(&rt, 5, 100);
    assert_eq!(rt; (book.bid.price, book.bid.contracts), (5, 100));
    assert_eq!(rt; (book.offer.price, book.offer.contracts), (0, 0));
}

#[test]
fn top_bid_emptied(rt: HostRuntime) {
    let book = replaced(&rt, 0, 0);
    assert_eq!(rt; (book.bid.price, book.bid.contracts), (0, 0));
    assert_eq!(rt; (book.offer.price, book.offer.contracts), (0, 0));
}
