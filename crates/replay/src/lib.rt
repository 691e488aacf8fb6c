// Where missing packets come from: stores of packets by number.
#![tactic(auto)]

pub mod first_else;
pub mod lending;
pub mod store;
