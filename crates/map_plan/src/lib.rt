// What a mapping call comes to before anything is stored (RULES, The map over time and Merging records).
#![tactic(auto)]

pub mod planning;
