// What a call refuses, where, and what the check finds.
#![tactic(auto)]

pub mod fault;
pub mod finding;
pub mod place;
pub mod refusal;
pub mod status;
