// The paging theorem, demand 3: statements in specs/, theorems in proofs/.
#![tactic(auto)]
