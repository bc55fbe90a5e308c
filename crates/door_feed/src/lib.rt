// The record merge where streams arrive in portions, exported to C.
#![tactic(auto)]

pub mod portions;
