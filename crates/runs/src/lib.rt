// The rules of a session, and what holds of them.
#![tactic(auto)]
