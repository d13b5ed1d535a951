// No code: what is said to the lines of a script, for any program that does one (specs/), and its laws (proofs/).
#![tactic(auto)]
