// The point-in-time build from metadata (RULES, The map over time).
#![tactic(auto)]

mod begin;
pub mod build;
mod mappings;
