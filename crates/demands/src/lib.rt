// The three demands as theorems: statements in specs/, theorems in proofs/.
#![tactic(auto)]
