// What the exports to C share: an answer's number and values in lent numbers, and a metadata's header in words.
#![tactic(auto)]

pub mod damage;
pub mod header;

// The number of a call that is done.
pub const DONE: u32 = 0;

// The number of memory that is not of the form.
pub const BAD_MEMORY: u32 = 15;
