ghost use Rattle.verdict.specs.Sound.{Status0SaysOneClaimEach, Status0Or8SaysNoTwoClaims};
ghost use Rattle.verdict.specs.Sound.{OneCodeForEachBlock, CodesSayWhoClaims, CensusCountsTheClaims, CensusCoversTheDataBlocks, FilePhaseSaysLawfulFiles};

// What the verdict says of a volume, in terms of claims.
pub fn verdict_stands() -> u8
    ensures zero { Status0SaysOneClaimEach }
    ensures eight { Status0Or8SaysNoTwoClaims }
    ensures coded { OneCodeForEachBlock }
    ensures codes { CodesSayWhoClaims }
    ensures census { CensusCountsTheClaims }
    ensures covers { CensusCoversTheDataBlocks }
    ensures files { FilePhaseSaysLawfulFiles }
{
    0
}
