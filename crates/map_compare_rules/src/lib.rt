// Two tables side by side as definitions and laws that speak of no code: they stand in specs/.
#![tactic(auto)]
