// The starred examples of the rules: no code, one list and its theorem.
#![tactic(auto)]
