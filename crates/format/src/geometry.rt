ghost use Rattle.std.specs.Prelude.{◌≡◌, ◌<◌, ◌≤◌, false, is_some, MatchOption};
ghost use Rattle.format.specs.Sizes.{lawful_sizes, inodes_of, least_isize, most_isize, most_fsize};

use crate::layout::{FIRST_LIST_BLOCK, INODES_PER_BLOCK, LEAST_ISIZE, MOST_FSIZE, MOST_ISIZE};
use std::ops::Range;

// The sizes of a volume: the first data block, and the end of the data blocks.
#[derive(Clone, Copy, Debug, PartialEq, Eq, Hash)]
pub struct Geometry {
    isize: u32,
    fsize: u32,
    ghost bounds: { (least_isize ≤ isize) × (isize ≤ most_isize) × (isize < fsize) × (fsize ≤ most_fsize) },
}

impl Geometry {
    // Lawful sizes alone.
    pub fn new(isize: u32, fsize: u32) -> Option<Geometry>
        ensures when { is_some result ≡ lawful_sizes isize fsize }
        ensures held { MatchOption result (lawful_sizes isize fsize ≡ false) (λ g. (g.isize ≡ isize) × (g.fsize ≡ fsize)) }
    {
        if !(LEAST_ISIZE..=MOST_ISIZE).contains(&isize) {
            return None;
        }
        if fsize <= isize || fsize > MOST_FSIZE {
            return None;
        }
        Some(Geometry { isize, fsize })
    }

    pub fn isize(self) -> u32
        ensures { result ≡ self.isize }
    {
        self.isize
    }

    pub fn fsize(self) -> u32
        ensures { result ≡ self.fsize }
    {
        self.fsize
    }

    // The numbers of the data blocks.
    pub fn data_blocks(self) -> Range<u32>
        ensures start { result.start ≡ self.isize }
        ensures end { result.end ≡ self.fsize }
    {
        Range {
            start: self.isize,
            end: self.fsize,
        }
    }

    // The number of inodes.
    pub fn inodes(self) -> u32
        ensures { result ≡ inodes_of self.isize }
    {
        INODES_PER_BLOCK * (self.isize - FIRST_LIST_BLOCK)
    }
}
