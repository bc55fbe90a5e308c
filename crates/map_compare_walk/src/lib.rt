// The walk over two tables side by side (RULES, Requests, No. 1): one step, and the stretches that it tells of, one after another.
#![tactic(auto)]

pub mod stretches;
pub mod tables;
pub mod walk;
