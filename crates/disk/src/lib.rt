// Disks: rows of sectors whose power may fail.
#![tactic(auto)]

pub mod admit;
pub mod disk;
pub mod laws;
