// Only one answer fits: for each answer's definition, that it keeps different answers apart. No code; the theorems stand in specs/.
#![tactic(auto)]
