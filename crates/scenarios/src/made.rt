// Three messages, byte by byte, and an answer by its returned number.
use codes::refusal::Refusal;

// A value, or the returned number with its offset or index. (`lender` has the same for its tests: a crate of tests for
// this alone would be no plainer.)
pub(crate) fn told<T>(answer: Result<T, Refusal>) -> Result<T, (u8, Option<usize>)> {
    answer.map_err(|refusal| (refusal.number(), refusal.place()))
}

// Subscription 11, stamp 34,200,001, number 1 of MSQAJ: a bid of 10 contracts at 13.5000 comes in as level 1, level 5
// goes.
pub const QUOTE: [u8; 52] = [
    0, 52, b'q', 11, 2, 9, 217, 193, 0, 0, 0, 1, 0, 0, 0, 0, 0, 0, 0, 0, 0, 0, 0, 0, 0, 0, 0, 0, 0,
    0, 0, 0, b'M', b'S', b'Q', b'A', b'J', 0, 0, 0, 0, b'B', 1, 5, 0, 0, 0, 10, 0, 2, 15, b'X',
];

// Stamp 34,200,002, number 2 of MSQAJ: the opening auction at 9:30, 20 contracts at 1.2500, 7 in all and 3 at the market
// left over.
pub const IMBALANCE: [u8; 60] = [
    0, 60, b'i', 11, 2, 9, 217, 194, 0, 0, 0, 2, 0, 0, 0, 0, 0, 0, 0, 0, 0, 0, 0, 0, 0, 0, 0, 0, 0,
    0, 0, 0, b'M', b'S', b'Q', b'A', b'J', 0, 0, 0, 0, b'O', 3, 162, 0, 0, 0, 20, 0, 0, 48, 212, 0,
    0, 0, 7, 0, 0, 0, 3,
];

// Stamp 34,200,003, number 3 of MSQAJ: the series is cleared.
pub const EVENT: [u8; 44] = [
    0, 44, b'v', 11, 2, 9, 217, 195, 0, 0, 0, 3, 0, 0, 0, 0, 0, 0, 0, 0, 0, 0, 0, 0, 0, 0, 0, 0, 0,
    0, 0, 0, b'M', b'S', b'Q', b'A', b'J', 0, 0, 0, 0, 0, b'C', b'C',
];
