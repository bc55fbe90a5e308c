// Many calls of the record merge at once, exported to C. A crate of its own: an archive in which the merge's inner turn has one caller has
// no call of it, neither in `desk_next` nor in the loop of `desk_run`.
#![tactic(auto)]

pub mod run;
