// The searches of a lookup in a table over time: where an instrument begins, and how far its intervals reach.
#![tactic(auto)]

pub mod begin;
pub mod reach;
pub mod search;
pub mod starts;
