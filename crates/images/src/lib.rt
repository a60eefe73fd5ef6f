// Disks over the caller's bytes: the plain image and the swapped dump.
#![tactic(auto)]

pub mod image;
pub mod laws;
pub mod order;
pub mod plain;
pub mod swapped;
