// The plan of a merge: both sides gathered, tested in order (11, 3, 1) and merged by name (7), before anything is written.
#![tactic(auto)]

pub mod plan;
