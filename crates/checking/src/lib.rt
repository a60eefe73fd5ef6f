// The check: one walk through files, free list and blocks.
#![tactic(auto)]

mod files;
mod level;
mod list;
mod met;
pub mod phase;
pub mod run;
mod walk;
