// Two tables over time side by side (RULES, Requests, No. 1): every stretch in which they disagree.
#![tactic(auto)]

pub mod compare;
mod stretch_bytes;
