// Many calls at once where streams arrive in portions, exported to C. A crate of its own, as `door_run` is one: so the inner turn has one
// caller in each archive, and neither `desk_feed_next` nor the loop of `desk_feed_run` has a call of it.
#![tactic(auto)]

pub mod run;
