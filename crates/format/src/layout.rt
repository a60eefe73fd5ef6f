// The numbers of the layout, each in one place.
use disk::admit::{SECTOR, Sector};

// A block is one sector.
pub const BLOCK_BYTES: usize = SECTOR;

pub type Block = Sector;

// The addresses in a table.
pub const TABLE_WIDTH: u32 = 128;

// Block 1 is the superblock, the i-list begins at block 2.
pub const SUPERBLOCK: u32 = 1;

pub const FIRST_LIST_BLOCK: u32 = 2;

pub const INODES_PER_BLOCK: u32 = 8;

pub const INODE_BYTES: usize = 64;

// The slots of an inode; the first of them name data.
pub const SLOTS: u32 = 13;

pub const DIRECT_SLOTS: u32 = 10;

// The entries of the free list that the superblock or a chain member holds.
pub const LIST_ROOM: u32 = 50;

// The numbers of unused inodes that the superblock holds.
pub const INODE_ROOM: usize = 100;

// The lowest number of a file that calls may change: inodes 1 and 2 are the volume's own.
pub const FIRST_FILE: u32 = 3;

// The sizes that a volume may have.
pub const LEAST_ISIZE: u32 = 3;

pub const MOST_ISIZE: u32 = 1026;

pub const MOST_FSIZE: u32 = 65536;
