ghost use Rattle.std.specs.Prelude.{◌≡◌};
ghost use Rattle.fault.specs.Findings.{kind_number, status_bit, finding_numbers};

use crate::place::Place;
use crate::status::Status;
use std::fmt;

// What the check finds, each kind with its number.
#[derive(Clone, Copy, Debug, PartialEq, Eq, Hash, PartialOrd, Ord)]
pub enum Kind {
    // an address in a file that is no data block
    BadAddress = 1,
    // a block that a file claims and that was claimed before
    SecondClaim = 2,
    // an inode of unknown type
    UnknownType = 3,
    // a count above the room of a chain member
    CountTooLarge = 4,
    // an entry of the free list outside the data blocks
    BadEntry = 5,
    // an entry of the free list that has a claim already
    SecondEntry = 6,
}

impl From<Kind> for u8 {
    ghost from_gives = { λ k n. n ≡ kind_number k };

    fn from(kind: Kind) -> u8 {
        kind as u8
    }
}

impl Kind {
    // The status bit that a finding of this kind sets.
    pub fn bit(self) -> Status
        ensures { result ≡ status_bit self }
    {
        match self {
            Kind::BadAddress | Kind::SecondClaim | Kind::UnknownType => Status::BAD_FILES,
            Kind::CountTooLarge => Status::BAD_COUNT,
            Kind::BadEntry => Status::BAD_ENTRY,
            Kind::SecondEntry => Status::SECOND_ENTRY,
        }
    }
}

#[derive(Clone, Copy, Debug, PartialEq, Eq, Hash)]
pub struct Finding {
    pub kind: Kind,
    pub address: u32,
    pub place: Place,
}

impl Finding {
    // What stands in a list before a check fills it: no finding of a check lies nowhere.
    pub const BLANK: Finding = Finding {
        kind: Kind::BadAddress,
        address: 0,
        place: Place::Nowhere,
    };

    // Kind, address, inode or 0, and slot or chain member. Four numbers in a row, since that is what is printed and what `finding_numbers` pins.
    pub fn numbers(self) -> (u8, u32, u32, u32)
        ensures { result ≡ finding_numbers self }
    {
        let kind = u8::from(self.kind);
        match self.place {
            Place::Slot { inode, slot } => (kind, self.address, inode, slot),
            Place::Member(member) => (kind, self.address, 0, member),
            Place::Sector(_) | Place::Nowhere => (kind, self.address, 0, 0),
        }
    }
}

// The four numbers, with one space between.
impl fmt::Display for Finding {
    fn fmt<W: fmt::Write>(&self, f: &mut fmt::Formatter<W>) -> fmt::Result {
        let (kind, address, inode, place) = self.numbers();
        write!(f, "{kind} {address} {inode} {place}")
    }
}
