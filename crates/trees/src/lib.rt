// Trees of tables, and how often they name a block.
#![tactic(auto)]

ghost use Rattle.trees.specs.Laws.{WalkSaysEachBlockOnce, FilesSayEachBlockOnce, NoFindingSaysSound, CodesSayTheClaims, NothingMissingSaysFull};

// What a check by codes finds agrees with the counts of claims.
pub fn counts_stand() -> u8
    ensures walk { WalkSaysEachBlockOnce }
    ensures files { FilesSayEachBlockOnce }
    ensures sound { NoFindingSaysSound }
    ensures codes { CodesSayTheClaims }
    ensures full { NothingMissingSaysFull }
{
    0
}
