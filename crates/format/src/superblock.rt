ghost use Rattle.std.specs.Prelude.{◌≡◌, ◌==◌, Some, None, if◌then◌else◌, slice_set};
ghost use Rattle.format.specs.Superblock.{at_flock, flock_of, magic_of, type_of, magic, type_fits};

use crate::layout::Block;
use crate::number::Number;

// The magic number, after which the type is read, and the type of 512-byte blocks.
pub const MAGIC: u32 = 0xFD187E20;

pub const TYPE: u32 = 1;

// Where the entries of the free list begin, and where its lock stands.
pub const AT_FREE: usize = 8;

pub const AT_FLOCK: usize = 410;

// The lock's two values.
pub const OPEN: u8 = 0;

pub const LOCKED: u8 = 1;

// A number in the superblock.
#[derive(Clone, Copy, Debug, PartialEq, Eq, Hash)]
pub enum Field {
    // the first data block, which ends the i-list
    Isize,
    // the end of the data blocks
    Fsize,
    // how many entries of the free list the superblock holds
    Nfree,
    // one of these entries
    Free(usize),
    // how many numbers of unused inodes the superblock holds
    Ninode,
    // one of these numbers
    InodeNumber(usize),
    // how many blocks are listed in all
    Tfree,
    // how many inodes are unused in all
    Tinode,
    // the magic number, if it is one
    Magic,
    // the type, which is read only under the magic number
    VolumeType,
}

impl Number for Field {
    ghost use Rattle.format.specs.Fields.{IsThere, at_of, width_of, within, narrow};

    ghost IsThere = { IsThere };

    ghost at_of = { at_of };

    ghost width_of = { width_of };

    ghost within = { within };

    ghost narrow = { narrow };

    fn at(self) -> usize {
        match self {
            Field::Isize => 0,
            Field::Fsize => 2,
            Field::Nfree => 6,
            Field::Free(k) => AT_FREE + 4 * k,
            Field::Ninode => 208,
            Field::InodeNumber(k) => 210 + 2 * k,
            Field::Tfree => 426,
            Field::Tinode => 430,
            Field::Magic => 504,
            Field::VolumeType => 508,
        }
    }

    fn width(self) -> usize {
        match self {
            Field::Isize | Field::Nfree | Field::Ninode | Field::InodeNumber(_) | Field::Tinode => {
                2
            }
            Field::Fsize | Field::Free(_) | Field::Tfree | Field::Magic | Field::VolumeType => 4,
        }
    }
}

// The type, where the magic number stands before it.
fn volume_type(block: &Block) -> Option<u32>
    ensures { result ≡ (if magic_of block.now == magic then Some (type_of block.now) else None) }
{
    if Field::Magic.get(block) == MAGIC {
        Some(Field::VolumeType.get(block))
    } else {
        None
    }
}

// Under the magic number the type must be that of 512-byte blocks.
pub fn type_fits(block: &Block) -> bool
    ensures { result ≡ type_fits block.now }
{
    volume_type(block).is_none_or(|t| t == TYPE)
}

// The lock of the free list.
pub fn flock(block: &Block) -> u8
    ensures { result ≡ flock_of block.now }
{
    block[AT_FLOCK]
}

pub fn set_flock(block: &mut Block, v: u8)
    ensures { block.new ≡ slice_set block.old at_flock v }
{
    block[AT_FLOCK] = v;
}
