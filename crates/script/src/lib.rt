// Scripts of calls: their lines, and what a script asks of a disk beside the library's calls.
#![tactic(auto)]

pub mod command;
pub mod digest;
pub mod meter;
pub mod poke;
pub mod token;
