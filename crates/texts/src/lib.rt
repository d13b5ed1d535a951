// The worked texts of the makers' notation, as a table that the checker computes: specs/Texts.
#![tactic(auto)]
