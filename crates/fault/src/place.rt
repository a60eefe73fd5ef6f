use std::fmt;

// Where a fault or a finding lies. Nowhere is a case and no option around the type: faults are compared and printed by their place, and most have none.
#[derive(Clone, Copy, Debug, PartialEq, Eq, Hash)]
pub enum Place {
    Sector(usize),
    Member(u32),
    Slot { inode: u32, slot: u32 },
    Nowhere,
}

impl fmt::Display for Place {
    fn fmt<W: fmt::Write>(&self, f: &mut fmt::Formatter<W>) -> fmt::Result {
        match self {
            Place::Sector(sector) => write!(f, "sector {sector}"),
            Place::Member(member) => write!(f, "member {member}"),
            Place::Slot { inode, slot } => write!(f, "slot {inode} {slot}"),
            Place::Nowhere => f.write_str("none"),
        }
    }
}
