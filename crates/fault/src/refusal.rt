ghost use Rattle.std.specs.Prelude.{◌≡◌};
ghost use Rattle.fault.specs.Refusals.{refusal_number};

// The reasons for which a call is refused, each with its number.
#[derive(Clone, Copy, Debug, PartialEq, Eq, Hash, PartialOrd, Ord)]
pub enum Refusal {
    // no inode of the i-list has this number, or a changing call names inode 1 or 2
    InodeNumber = 1,
    // a position past the last one, or a length that is not 1 to 512
    Position = 2,
    // a buffer that has not its size
    BufferSize = 3,
    // make with unlawful sizes
    MakeSizes = 4,
    // a sector beyond the end of the disk
    BeyondEnd = 5,
    // worn sectors that cannot be named
    WornSectors = 6,
    // sizes or type unlawful, or a volume larger than its disk
    NoVolume = 7,
    // sizes other than those of the volume held
    OtherSizes = 8,
    // flock is not 0
    Locked = 9,
    // an unused inode, or one of a wrong type
    FileType = 10,
    // a bad address on the path to a position
    BadAddress = 11,
    // a bad free list
    BadFreeList = 12,
    // the unclaimed blocks need more chain members than there are
    Remainder = 13,
    // rebuild met findings in the files
    FileFindings = 14,
    // clear met a status
    NotClear = 15,
    // too few blocks listed
    NoBlocks = 16,
    // no unused inode
    NoInodes = 17,
    // a read at or past the end of the file
    PastEnd = 18,
}

impl From<Refusal> for u8 {
    ghost from_gives = { λ r n. n ≡ refusal_number r };

    fn from(refusal: Refusal) -> u8 {
        refusal as u8
    }
}
