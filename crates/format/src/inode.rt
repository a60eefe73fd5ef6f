ghost use Rattle.std.specs.Prelude.{◌≡◌, ℕ, ◌+◌, ◌<◌, ◌≤◌, ◌++◌, take, drop, replicate, [], ◌≢◌, ◌%◌, ◌-◌, length, slice_index_or};
ghost use Rattle.format.specs.Layout.{inode_bytes, inodes_per_block};
ghost use Rattle.format.specs.Inode.{block_of_inode, start_of_inode, type_bits};

use crate::layout::{Block, FIRST_LIST_BLOCK, INODE_BYTES, INODES_PER_BLOCK};
use crate::number::Number;
use disk::disk::{Disk, get};
use std::marker::Model;

// The top four bits of a mode.
pub fn type_bits(mode: u32) -> u32
    ensures { result ≡ type_bits mode }
{
    mode / 4096
}

// What an inode is, by the top four bits of its mode.
#[derive(Clone, Copy, Debug, PartialEq, Eq, Hash)]
pub enum InodeType {
    Unused,
    Regular,
    Directory,
    Special,
    Unknown,
}

impl InodeType {
    ghost use Rattle.format.specs.Inode.{type_rule, claims_blocks};

    // The type that a mode gives. No conversion, since any number would convert; unknown is a case and no error, since a check goes on and reports it.
    pub fn of_mode(mode: u32) -> InodeType
        ensures { result ≡ type_rule (type_bits mode) }
    {
        match type_bits(mode) {
            0 => InodeType::Unused,
            8 => InodeType::Regular,
            4 => InodeType::Directory,
            1 | 2 | 6 => InodeType::Special,
            _ => InodeType::Unknown,
        }
    }

    // Only regular files and directories claim blocks. All types stand here, so that none is forgotten.
    pub fn claims_blocks(self) -> bool
        ensures { result ≡ claims_blocks self }
    {
        match self {
            InodeType::Regular | InodeType::Directory => true,
            InodeType::Unused | InodeType::Special | InodeType::Unknown => false,
        }
    }
}

// A part of an inode that is a number.
#[derive(Clone, Copy, Debug, PartialEq, Eq, Hash)]
pub enum Part {
    Mode,
    Nlink,
    // the size of the file
    Size,
    // the address in a slot
    Slot(u32),
}

// A part of one inode.
#[derive(Clone, Copy, Debug, PartialEq, Eq, Hash)]
pub struct InodeField {
    pub inode: Inode,
    pub part: Part,
}

impl Number for InodeField {
    ghost use Rattle.format.specs.Fields.{IsInInode, at_in, width_in, within_inode, narrow_inode};

    ghost IsThere = { IsInInode };

    ghost at_of = { at_in };

    ghost width_of = { width_in };

    ghost within = { within_inode };

    ghost narrow = { narrow_inode };

    fn at(self) -> usize {
        let start = self.inode.start();
        match self.part {
            Part::Mode => start,
            Part::Nlink => start + 2,
            Part::Size => start + 8,
            Part::Slot(slot) => start + 12 + 3 * slot as usize,
        }
    }

    fn width(self) -> usize {
        match self.part {
            Part::Mode | Part::Nlink => 2,
            Part::Size => 4,
            Part::Slot(_) => 3,
        }
    }
}

// An inode, by its number; they are numbered from 1.
#[derive(Clone, Copy, Debug, PartialEq, Eq, Hash)]
pub struct Inode {
    number: u32,
}

impl Model for Inode {
    ghost Value = { ℕ };

    ghost view = { λ i. i.number };

    ghost invariant = { λ i. 1 ≤ i.number };

    ghost inverse = { λ n. record { number = n } };
}

impl Inode {
    pub fn new(number: u32) -> Inode
        requires { 1 ≤ number }
        ensures { result ≡ number }
    {
        Inode { number }
    }

    // A part of the inode.
    pub fn part(self, part: Part) -> InodeField
        ensures { result ≡ record { inode = self; part = part } }
    {
        InodeField { inode: self, part }
    }

    // The block of the inode.
    pub fn block(self) -> u32
        ensures { result ≡ block_of_inode self }
    {
        FIRST_LIST_BLOCK + (self.number - 1) / INODES_PER_BLOCK
    }

    // The byte of its block at which the inode begins.
    fn start(self) -> usize
        ensures { result ≡ start_of_inode self }
    {
        INODE_BYTES * ((self.number - 1) % INODES_PER_BLOCK) as usize
    }

    // Makes all bytes of the inode zero.
    pub fn blank(self, block: &mut Block)
        ensures { block.new ≡ take (start_of_inode self) block.old ++ (replicate inode_bytes 0 ++ drop (start_of_inode self + inode_bytes) block.old) }
    {
        let at = self.start();
        block[at..at + INODE_BYTES].fill(0);
    }

    // Turns to the block of the inode, on a way through the i-list: it is read at its first inode, and is there at the others.
    pub fn turn_to<D: Disk>(self, d: &D, node: &mut Block)
        requires there { block_of_inode self < length (D.Disk.medium d.now).sectors }
        requires before { ((self - 1) % inodes_per_block ≢ 0) → node.old ≡ slice_index_or (D.Disk.medium d.now).sectors (block_of_inode self) [] }
        ensures { node.new ≡ slice_index_or (D.Disk.medium d.now).sectors (block_of_inode self) [] }
    {
        if (self.number - 1) % INODES_PER_BLOCK == 0 {
            get(d, self.block() as usize, node);
        }
    }
}
