// A run of calls, of anything that is called again and again (RULES, Requests, No. 14): its list, and the run.
#![tactic(auto)]

pub mod list;
pub mod run;
