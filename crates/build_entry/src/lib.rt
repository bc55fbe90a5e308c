// Which interval of a mapping counts on a day, and the entry that it makes (RULES, The map over time, 18).
#![tactic(auto)]

pub mod counted;
pub mod entry;
