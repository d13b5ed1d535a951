// Theorems about the model. They stand in proofs/.
#![tactic(auto)]
