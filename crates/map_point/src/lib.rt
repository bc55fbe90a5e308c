// The point-in-time table: entries, check, lookup, and setting an entry.
#![tactic(auto)]

pub mod entries;
pub mod points;
