// A window on the packets last received, from which lost ones are mended.
#![tactic(auto)]

mod cell;
pub mod store;
pub mod window;
