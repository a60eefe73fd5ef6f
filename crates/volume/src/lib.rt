// Volumes: making, finding, checking, clearing and closing them.
#![tactic(auto)]

pub mod check;
pub mod clear;
pub mod find;
pub mod held;
mod identify;
pub mod make;
