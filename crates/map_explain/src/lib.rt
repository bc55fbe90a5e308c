// Why an instrument has a symbol at a moment, or none (RULES, Requests, No. 4), in a table over time.
#![tactic(auto)]

pub mod explain;
