// The library for C programs, libdesk.a: each export of the doors under its own name and with its promises. A static library exports
// what it declares itself and nothing of what it calls, so each function here is one call of its door's function. The runs stand in
// libraries of their own, desk_runs and desk_feed_runs, which desk/tools.sh joins to it.
#![tactic(auto)]

mod builds;
mod map;
mod merge;
mod metadata;
mod names;
mod portions;
