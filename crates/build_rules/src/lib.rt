// Both builds from metadata: definitions and laws stand in specs/; here is what both read.
#![tactic(auto)]

pub mod call;
pub mod reading;
