use crate::layout::LIST_ROOM;
use crate::number::Number;

// The bytes of a count, an entry or an address.
const WIDTH: usize = 4;

// Where the entries of a chain member begin, and the bytes of all that one part of the list holds.
pub const AT_ENTRIES: usize = WIDTH;

pub const ENTRIES: usize = WIDTH * LIST_ROOM as usize;

// A number in a chain member of the free list.
#[derive(Clone, Copy, Debug, PartialEq, Eq, Hash)]
pub enum MemberField {
    // how many entries count
    Count,
    Entry(usize),
}

impl Number for MemberField {
    ghost use Rattle.format.specs.Tables.{IsInMember, at_in_member, width_in_member, within_member, narrow_member};

    ghost IsThere = { IsInMember };

    ghost at_of = { at_in_member };

    ghost width_of = { width_in_member };

    ghost within = { within_member };

    ghost narrow = { narrow_member };

    fn at(self) -> usize {
        match self {
            MemberField::Count => 0,
            MemberField::Entry(k) => AT_ENTRIES + WIDTH * k,
        }
    }

    fn width(self) -> usize {
        WIDTH
    }
}

// An address in a table, by its index.
#[derive(Clone, Copy, Debug, PartialEq, Eq, Hash)]
pub struct TableEntry(pub u32);

impl Number for TableEntry {
    ghost use Rattle.format.specs.Tables.{IsInTable, at_in_table, width_in_table, within_table, narrow_table};

    ghost IsThere = { IsInTable };

    ghost at_of = { at_in_table };

    ghost width_of = { width_in_table };

    ghost within = { within_table };

    ghost narrow = { narrow_table };

    fn at(self) -> usize {
        WIDTH * self.0 as usize
    }

    fn width(self) -> usize {
        WIDTH
    }
}
