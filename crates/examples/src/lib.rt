// The rules' examples M1 to M12 as one list and one theorem: they stand in specs/.
#![tactic(auto)]
