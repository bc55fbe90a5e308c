// The leaves: what every crate above reads, writes and refuses by.
#![tactic(auto)]

pub mod frame;
pub mod refusal;
