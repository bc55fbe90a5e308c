// Opening a first metadata and finishing (RULES, Merging metadata), and a metadata laid over the lent lists.
#![tactic(auto)]

pub mod commit;
pub mod opening;
