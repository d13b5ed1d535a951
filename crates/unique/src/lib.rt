// No two outcomes fit a promise, as a theorem: statements in specs/, theorems in proofs/.
#![tactic(auto)]
