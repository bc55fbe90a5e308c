// Names and lists of names.
#![tactic(auto)]

pub mod names;
