// UTF-8 (RULES, Names, numbers, days, 6).
#![tactic(auto)]

pub mod utf8;
