// Lines of text and sections of input, which the programs share.
#![tactic(auto)]

pub mod asked;
pub mod lines;
pub mod parts;
pub mod sections;
