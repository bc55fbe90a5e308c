// Both builds exported to C.
#![tactic(auto)]

pub mod build;
