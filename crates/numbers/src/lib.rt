// Numbers in a row of bytes, high byte first.
#![tactic(auto)]

pub mod fields;
pub mod laws;
