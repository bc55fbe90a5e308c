// Many calls at once where streams arrive in portions (RULES, Requests, No. 14).
#![tactic(auto)]

pub mod run;
