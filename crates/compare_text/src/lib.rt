// The lines of a comparison, a stretch each, laid in lent bytes portion by portion.
#![tactic(auto)]

pub mod telling;
