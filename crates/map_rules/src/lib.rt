// The table over time as definitions and laws that speak of no code: they stand in specs/.
#![tactic(auto)]
