// Metadata: merging one more into a gathered one (RULES, Merging metadata). The Rust's `MetadataMerger`.
#![tactic(auto)]

pub mod merger;
mod outcome;
