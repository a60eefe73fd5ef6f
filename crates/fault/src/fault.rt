ghost use Rattle.std.specs.Prelude.{◌≡◌};
ghost use Rattle.fault.specs.declared.fault.FileFault.TheVariants.{Refused, InList};
ghost use Rattle.fault.specs.Refusals.{disk_buffer, beyond, bad_worn, keeper, list_fault, file_fault, file_fault_at};

use crate::place::Place;
use crate::refusal::Refusal;
use std::fmt;

// The part of the library that refuses.
#[derive(Clone, Copy, Debug, PartialEq, Eq, Hash)]
pub enum Layer {
    Disk,
    List,
    Keeper,
}

impl fmt::Display for Layer {
    fn fmt<W: fmt::Write>(&self, f: &mut fmt::Formatter<W>) -> fmt::Result {
        f.write_str(match self {
            Layer::Disk => "disk",
            Layer::List => "list",
            Layer::Keeper => "keeper",
        })
    }
}

#[derive(Clone, Copy, Debug, PartialEq, Eq, Hash)]
pub struct Fault {
    pub refusal: Refusal,
    pub layer: Layer,
    pub place: Place,
}

impl Fault {
    // A buffer that has not the size of a sector, at a disk.
    pub fn disk_buffer() -> Fault
        ensures { result ≡ disk_buffer }
    {
        Fault {
            refusal: Refusal::BufferSize,
            layer: Layer::Disk,
            place: Place::Nowhere,
        }
    }

    // A sector beyond the end of the disk.
    pub fn beyond(sector: usize) -> Fault
        ensures { result ≡ beyond sector }
    {
        Fault {
            refusal: Refusal::BeyondEnd,
            layer: Layer::Disk,
            place: Place::Sector(sector),
        }
    }

    // Worn sectors that cannot be named.
    pub fn bad_worn() -> Fault
        ensures { result ≡ bad_worn }
    {
        Fault {
            refusal: Refusal::WornSectors,
            layer: Layer::Disk,
            place: Place::Nowhere,
        }
    }
}

// A refusal of the keeper, which has no place.
impl From<Refusal> for Fault {
    ghost from_gives = { λ r f. f ≡ keeper r };

    fn from(refusal: Refusal) -> Fault {
        Fault {
            refusal,
            layer: Layer::Keeper,
            place: Place::Nowhere,
        }
    }
}

// Number, layer and place.
impl fmt::Display for Fault {
    fn fmt<W: fmt::Write>(&self, f: &mut fmt::Formatter<W>) -> fmt::Result {
        let number = u8::from(self.refusal);
        write!(f, "{number} {} {}", self.layer, self.place)
    }
}

// What take and give refuse, with the chain member whose count or entry failed.
#[derive(Clone, Copy, Debug, PartialEq, Eq, Hash)]
pub enum ListFault {
    Bad { member: u32 },
    Empty { member: u32 },
}

// The fault as number, layer and place.
impl From<ListFault> for Fault {
    ghost from_gives = { λ f r. r ≡ list_fault f };

    fn from(fault: ListFault) -> Fault {
        let (refusal, member) = match fault {
            ListFault::Bad { member } => (Refusal::BadFreeList, member),
            ListFault::Empty { member } => (Refusal::NoBlocks, member),
        };
        Fault {
            refusal,
            layer: Layer::List,
            place: Place::Member(member),
        }
    }
}

// What a call on a file refuses. A list fault travels whole, with the inode and the position of the call.
#[derive(Clone, Copy, Debug, PartialEq, Eq, Hash)]
pub enum FileFault {
    Refused(Fault),
    InList {
        inode: u32,
        position: u32,
        fault: ListFault,
    },
}

// Inode and position are 0 here, since `?` converts without knowing them; `at` puts in those of the call.
impl From<ListFault> for FileFault {
    ghost from_gives = { λ f r. r ≡ InList 0 0 f };

    fn from(fault: ListFault) -> FileFault {
        FileFault::InList {
            inode: 0,
            position: 0,
            fault,
        }
    }
}

impl From<Fault> for FileFault {
    ghost from_gives = { λ f r. r ≡ Refused f };

    fn from(fault: Fault) -> FileFault {
        FileFault::Refused(fault)
    }
}

// The fault as number, layer and place; inode and position of the call are left out.
impl From<FileFault> for Fault {
    ghost from_gives = { λ f r. r ≡ file_fault f };

    fn from(fault: FileFault) -> Fault {
        match fault {
            FileFault::Refused(f) => f,
            FileFault::InList { fault, .. } => Fault::from(fault),
        }
    }
}

impl FileFault {
    // The same fault, with the inode and the position of the call where it is a list fault.
    pub fn at(self, inode: u32, position: u32) -> FileFault
        ensures { result ≡ file_fault_at inode position self }
    {
        match self {
            FileFault::Refused(f) => FileFault::Refused(f),
            FileFault::InList { fault, .. } => FileFault::InList {
                inode,
                position,
                fault,
            },
        }
    }
}
