// The messages of the feed, read from bytes without copying them.
#![tactic(auto)]

pub mod fields;
pub mod header;
pub mod message;
pub mod numbers;
pub mod read;
pub mod symbol;
