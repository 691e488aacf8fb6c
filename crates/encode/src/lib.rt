// Packets and messages of the feed, written into a buffer that the caller lends.
#![tactic(auto)]

pub mod message;
pub mod packet;
mod parts;
