// The record merge where streams arrive in portions, as a machine: definitions and theorems that speak of no code. They stand in specs/.
#![tactic(auto)]
