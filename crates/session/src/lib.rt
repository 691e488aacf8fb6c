// A session over slots that are lent to it.
#![tactic(auto)]

mod check;
mod progress;
pub mod session;
