// The verdict on a volume: what the check finds, and what that says of the volume.
#![tactic(auto)]

pub mod theorem;
pub mod verdict;
