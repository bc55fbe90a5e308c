// The table over time in bytes: an interval's place, and the check.
#![tactic(auto)]

pub mod interval;
pub mod places;
pub mod table;
