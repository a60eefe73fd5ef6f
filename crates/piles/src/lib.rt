// Disks over other disks: the forwarder, the fuse and piles of them.
#![tactic(auto)]

pub mod forwarder;
pub mod fuse;
pub mod laws;
pub mod pile;
