ghost use Rattle.std.specs.Prelude.{◌≡◌, ◌+◌, ◌^◌, ◌<◌};
ghost use Rattle.verdict.specs.Scan.{counted};
ghost use Rattle.verdict.specs.Verdict.{verdict_from};

use crate::claim::Claimant;
use crate::tally::Tally;
use fault::status::Status;
use verdict::verdict::{Census, Verdict};

// One more block, by its code.
pub fn count(census: &mut Census, code: u8)
    requires { census.old.used + census.old.free + census.old.missing + 1 < 2 ^ 32 }
    ensures { census.new ≡ counted code census.old }
{
    match Claimant::of(code) {
        None => census.missing += 1,
        Some(Claimant::File) => census.used += 1,
        Some(Claimant::FreeList) => census.free += 1,
    }
}

// The verdict, for a list with room for so many findings.
pub fn judge(tally: Tally, census: Census, room: usize) -> Verdict
    ensures { result ≡ verdict_from tally.status tally.count census room }
{
    let mut status = tally.status;
    if census.missing > 0 {
        status = status.with(Status::BLOCKS_MISSING);
    }
    if tally.count as usize > room {
        status = status.with(Status::NOT_ALL_SHOWN);
    }
    Verdict {
        status,
        census,
        findings: tally.count,
    }
}
