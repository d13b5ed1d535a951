// Theorems about the plain engine's definitions. They stand in proofs/.
#![tactic(auto)]
