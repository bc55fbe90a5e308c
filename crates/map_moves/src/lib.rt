// What an insert searches and moves in a table over time.
#![tactic(auto)]

pub mod moves;
pub mod search;
