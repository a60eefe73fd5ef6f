ghost use Rattle.disk.specs.Medium.{NoWriteLaw, JoinedWritesLaw, FirstWritesLaw, AllWritesLaw};

// The laws of writes under a power that may fail.
pub fn writes_stand() -> u8
    ensures none { NoWriteLaw }
    ensures joined { JoinedWritesLaw }
    ensures first { FirstWritesLaw }
    ensures all { AllWritesLaw }
{
    0
}
