// The record merge where streams arrive in portions (RULES, Requests, No. 5): what is lent, the opening, and the next answer.
#![tactic(auto)]

pub mod lent;
pub mod opening;
pub mod turns;
