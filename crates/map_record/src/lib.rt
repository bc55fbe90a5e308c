// The mapping call (RULES, The map over time): a symbol mapping record goes into a table, and its name into the list.
#![tactic(auto)]

pub mod mapping;
