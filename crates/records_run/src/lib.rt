// Many calls of the record merge at once (RULES, Requests, No. 14).
#![tactic(auto)]

pub mod run;
