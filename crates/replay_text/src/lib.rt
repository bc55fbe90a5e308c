// A bundle (RULES, Merging records) taken apart, and the whole text of its replay, by either engine of the merge.
#![tactic(auto)]

pub mod replay;
mod telling;
