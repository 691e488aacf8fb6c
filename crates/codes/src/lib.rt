// The codes of the feed and the returned numbers, as enums.
#![tactic(auto)]

pub mod auction;
pub mod conversions;
pub mod event;
pub mod kind;
pub mod message;
pub mod packet;
pub mod quote;
pub mod refusal;
pub mod unknown;
