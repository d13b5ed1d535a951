// Decodes an instruction word and computes what it asks for, by the tables of "Instructions". It does not touch memory.
#![tactic(auto)]

pub mod decode;
pub mod functions;
