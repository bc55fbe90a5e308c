// The merge of mappings by name: the mappings of both sides linked by name, and each name's outcome laid after the other.
#![tactic(auto)]

mod heads;
pub mod link;
mod name;
pub mod names;
