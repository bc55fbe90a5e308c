// Numbers, mappings and intervals in lent words, and a list laid over a longer one.
#![tactic(auto)]

pub mod over;
pub mod words;
