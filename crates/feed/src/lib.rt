// The packets of the feed, and their messages one after the other.
#![tactic(auto)]

pub mod packet;
