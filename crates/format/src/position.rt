ghost use Rattle.std.specs.Prelude.{◌≡◌};
ghost use Rattle.format.specs.Position.{split as split_rule};

use crate::layout::{DIRECT_SLOTS, TABLE_WIDTH};

// Where the positions of slots 11 and 12 begin, and where all end.
pub const END_OF_ONE: u32 = DIRECT_SLOTS + TABLE_WIDTH;

pub const END_OF_TWO: u32 = END_OF_ONE + TABLE_WIDTH * TABLE_WIDTH;

pub const POSITIONS: u32 = END_OF_TWO + TABLE_WIDTH * TABLE_WIDTH * TABLE_WIDTH;

// A tuple, by the forms in docs/DECISIONS.md: the slot of a position, its depth, and the index at each depth, the outermost first; None past the last position.
#[tactic(auto, unfolding(crate::specs::Position::split_of))]
pub fn split(position: u32) -> Option<(u32, u32, u32, u32, u32)>
    ensures { result ≡ split_rule position }
{
    if position < DIRECT_SLOTS {
        return Some((position, 0, 0, 0, 0));
    }
    if position < END_OF_ONE {
        return Some((10, 1, position - DIRECT_SLOTS, 0, 0));
    }
    if position < END_OF_TWO {
        let q = position - END_OF_ONE;
        return Some((11, 2, q / TABLE_WIDTH, q % TABLE_WIDTH, 0));
    }
    if position < POSITIONS {
        let q = position - END_OF_TWO;
        return Some((
            12,
            3,
            q / (TABLE_WIDTH * TABLE_WIDTH),
            q / TABLE_WIDTH % TABLE_WIDTH,
            q % TABLE_WIDTH,
        ));
    }
    None
}
