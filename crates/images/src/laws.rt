ghost use Rattle.images.specs.Images.{DumpLaw};

// The swapped dump is the plain image of the bytes with each pair exchanged.
pub fn dump_stands() -> u8
    ensures { DumpLaw }
{
    0
}
