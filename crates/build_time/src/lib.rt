// The build over time from metadata.
#![tactic(auto)]

pub mod over_time;
