// Inserts into the table over time (RULES, The map over time).
#![tactic(auto)]

pub mod insert;
