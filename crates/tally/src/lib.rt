// What the check notes: the codes of blocks, the findings, the census, and the verdict on them.
#![tactic(auto)]

pub mod census;
pub mod claim;
pub mod codes;
pub mod notes;
pub mod tally;
