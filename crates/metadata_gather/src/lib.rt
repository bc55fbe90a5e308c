// What a merge reads: numbers in the order of first arrival, a first metadata's mappings without its repeats, and the mappings
// of both sides one after the other.
#![tactic(auto)]

mod arrivals;
pub mod judge;
mod picks;
pub mod sets;
pub mod sides;
