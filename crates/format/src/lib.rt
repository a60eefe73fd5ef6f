// The bytes of a volume: sizes, superblock, inodes, positions.
#![tactic(auto)]

pub mod geometry;
pub mod inode;
pub mod laws;
pub mod layout;
pub mod number;
pub mod on_disk;
pub mod position;
pub mod superblock;
pub mod table;
