// A run of calls, of anything that is called again and again: definitions and theorems that speak of no code. They stand in specs/.
#![tactic(auto)]
