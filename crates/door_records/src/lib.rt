// The record merge exported to C, and a stream's hint from its metadata.
#![tactic(auto)]

pub mod hints;
pub mod merge;
