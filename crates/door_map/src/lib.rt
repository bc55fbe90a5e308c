// The door to C: names, days, texts, the map over time, two of them side by side, why there is a symbol or none, and the point-in-time
// table. Each function answers the rules' number, 0 where it is done, and hands further results back through lent numbers, which a
// refusal leaves as they were but where `include/desk.h` says otherwise.
#![tactic(auto)]

pub mod compare;
pub mod days;
pub mod explain;
pub mod map;
pub mod names;
pub mod points;
mod record;
mod symbol;
pub mod text;
