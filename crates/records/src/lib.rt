// The record merge: the calls `open` and `next`, what an engine of the merge is, and the hint that a stream's metadata gives it.
#![tactic(auto)]

pub mod engine;
pub mod hints;
pub mod merge;
