// Days and dates (RULES, Names, numbers, days).
#![tactic(auto)]

pub mod days;
