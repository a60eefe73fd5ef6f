// Worked examples, computed from the rules.
#![tactic(auto)]

ghost use Rattle.examples.specs.Examples.{NewVolumeOf3And20};

// The volume of sizes 3 and 20 as make leaves it: 17 entries, 16 blocks listed, block 4 the first to be taken.
pub fn new_volume_stands() -> u8
    ensures { NewVolumeOf3And20 }
{
    0
}
