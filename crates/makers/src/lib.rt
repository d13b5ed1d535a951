// What makers can rely on, over the definitions: statements in specs/, theorems in proofs/.
#![tactic(auto)]
