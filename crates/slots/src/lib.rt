// Slots of watched series, and what the messages of a packet do to them.
#![tactic(auto)]

pub mod opening;
pub mod slot;
pub mod taking;
