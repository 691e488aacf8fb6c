// Kinds of record: what is kept of a series, and what a message makes of it.
#![tactic(auto)]

pub mod book;
pub mod depth;
pub mod imbalance;
pub mod kind;
pub mod meanings;
pub mod side;
pub mod top;
