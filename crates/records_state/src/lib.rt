// The record merge's state in arrays: a stream's marks, the heap, and how an opening lays them.
#![tactic(auto)]

pub mod heap;
pub mod opening;
pub mod state;
