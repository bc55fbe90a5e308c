// The metadata merge exported to C.
#![tactic(auto)]

pub mod merger;
