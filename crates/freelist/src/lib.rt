// The free list: take and give in the caller's sector buffer.
#![tactic(auto)]

pub mod laws;
pub mod list;
