// The form of a metadata in lent memory: a header by value and five lists of words; what its tests, fields and sets come to.
#![tactic(auto)]

pub mod header;
pub mod lists;
