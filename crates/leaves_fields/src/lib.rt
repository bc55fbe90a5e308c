// Numbers in bytes, and a slice copied over another.
#![tactic(auto)]

pub mod copies;
pub mod fields;
