ghost use Rattle.std.specs.Prelude.{◌≡◌, ℕ, ◌↔◌, IsTrue, bit_or};

use std::fmt;
use std::marker::Model;

// What a check found in all: a bit for each sort of finding, 0 for a volume without any.
#[derive(Clone, Copy, Debug, PartialEq, Eq, Hash)]
pub struct Status {
    bits: u8,
}

impl Model for Status {
    ghost Value = { ℕ };

    ghost view = { λ s. s.bits };

    ghost inverse = { λ n. record { bits = n } };
}

impl Status {
    // Nothing was found.
    pub const CLEAN: Status = Status { bits: 0x00 };

    // More was found than the list has room for.
    pub const NOT_ALL_SHOWN: Status = Status { bits: 0x01 };

    // An address or a type in a file is bad.
    pub const BAD_FILES: Status = Status { bits: 0x02 };

    // A count of the free list is too large.
    pub const BAD_COUNT: Status = Status { bits: 0x04 };

    // Blocks have no claim.
    pub const BLOCKS_MISSING: Status = Status { bits: 0x08 };

    // An entry of the free list has a claim already.
    pub const SECOND_ENTRY: Status = Status { bits: 0x10 };

    // An entry of the free list is no data block.
    pub const BAD_ENTRY: Status = Status { bits: 0x20 };

    // The bits of both.
    pub fn with(self, other: Status) -> Status
        ensures { result ≡ bit_or self other }
    {
        Status {
            bits: self.bits | other.bits,
        }
    }

    pub fn is_clean(self) -> bool
        ensures { IsTrue result ↔ (self ≡ 0) }
    {
        self.bits == 0
    }
}

impl From<Status> for u8 {
    ghost from_gives = { λ s n. n ≡ s };

    fn from(status: Status) -> u8 {
        status.bits
    }
}

// The status that a byte means, whatever the byte.
impl From<u8> for Status {
    ghost from_gives = { λ n s. s ≡ n };

    fn from(bits: u8) -> Status {
        Status { bits }
    }
}

// Two digits in upper case.
impl fmt::Display for Status {
    fn fmt<W: fmt::Write>(&self, f: &mut fmt::Formatter<W>) -> fmt::Result {
        write!(f, "0x{:02X}", self.bits)
    }
}
