// The session file: the packets of a session in one file, with the symbols to watch.
#![tactic(auto)]

pub mod entries;
pub mod file;
pub mod header;
pub mod store;
