// The stores in use: callers that know them by their contracts alone, and tests with values worked out by hand.
#![tactic(auto)]

pub mod callers;
#[cfg(test)]
mod files;
#[cfg(test)]
mod windows;
