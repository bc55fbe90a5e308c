// Numbers in text.
#![tactic(auto)]

pub mod number_text;
