// Theorems only: the laws of the makers' notation.
#![tactic(auto)]
