ghost use Rattle.std.specs.Prelude.{◌≡◌, ◌+◌, ◌^◌, ◌<◌, length, slice_index, if◌then◌else◌};
ghost use Rattle.verdict.specs.Scan.{note, met, opens};
ghost use Rattle.verdict.specs.Verdict.{verdict_from};
ghost use Rattle.tally.specs.Claims.{code_of_claim, bad_of, again_of};

use crate::census::judge;
use crate::claim::Claim;
use crate::codes::{clear_codes, code_of};
use crate::tally::Tally;
use disk::disk::Disk;
use fault::finding::Finding;
use fault::status::Status;
use format::on_disk::OnDisk;
use verdict::verdict::{Census, Verdict};

// What a check notes: the code of each block, the first findings in the caller's list, the number of all findings, and the status of their kinds.
#[derive(Debug, Drop)]
pub struct Notes<'a, D: Disk> {
    pub volume: &'a OnDisk<'a, D>,
    pub codes: &'a mut [u8],
    pub findings: &'a mut [Finding],
    pub count: u32,
    pub status: Status,
    ghost sized: { length codes.now ≡ volume.now.sizes.fsize },
}

impl<'a, D: Disk> Notes<'a, D> {
    ghost use Rattle.tally.specs.Notes.{scan_of, fresh, unclaimed, SameLists};

    // No block is claimed, and nothing is found.
    pub fn new(
        volume: &'a OnDisk<'a, D>,
        codes: &'a mut [u8],
        findings: &'a mut [Finding],
    ) -> Notes<'a, D>
        requires { length codes.old ≡ volume.now.sizes.fsize }
        ensures volume { result.volume.now ≡ volume.now }
        ensures scan { scan_of result ≡ fresh (length codes.old) findings.old }
        ensures count { result.count ≡ 0 }
        ensures codes { result.codes.ghost_name ≡ codes.entry.ghost_name }
        ensures findings { result.findings.ghost_name ≡ findings.entry.ghost_name }
    {
        clear_codes(codes);
        let Tally { count, status } = Tally::new();
        Notes {
            volume,
            codes,
            findings,
            count,
            status,
        }
    }

    // The two numbers, apart from what they were counted over.
    pub fn tally(&self) -> Tally
        ensures { result ≡ record { count = self.now.count; status = self.now.status } }
    {
        Tally {
            count: self.count,
            status: self.status,
        }
    }

    // One more finding; a list that is full keeps the first.
    pub fn note(&mut self, finding: Finding)
        requires { self.old.count + 1 < 2 ^ 32 }
        ensures scan { scan_of self.new ≡ note finding.kind finding.address finding.place (scan_of self.old) }
        ensures count { self.new.count ≡ self.old.count + 1 }
        ensures same { SameLists self.old self.new }
    {
        let mut tally = self.tally();
        tally.note(self.findings, finding);
        self.count = tally.count;
        self.status = tally.status;
    }

    // The code of a block.
    pub fn code(&self, block: u32) -> u8
        requires { block < length self.now.codes.now }
        ensures { result ≡ slice_index self.now.codes.now block }
    {
        code_of(self.codes, block)
    }

    // Claims a data block that nothing has claimed; any other address is a finding. Says whether it claimed: a finding is noted and no error, since the walk goes on.
    pub fn meet(&mut self, claim: Claim, address: u32) -> bool
        requires { self.old.count + 1 < 2 ^ 32 }
        ensures opens { result ≡ opens self.old.volume.now.sizes.isize self.old.volume.now.sizes.fsize address self.old.codes.now }
        ensures scan { scan_of self.new ≡ met self.old.volume.now.sizes.isize self.old.volume.now.sizes.fsize (code_of_claim claim.by) (bad_of claim.by) (again_of claim.by) claim.place address (scan_of self.old) }
        ensures unclaimed { unclaimed self.new.codes.now + (if result then 1 else 0) ≡ unclaimed self.old.codes.now }
        ensures count { self.new.count + (if result then 1 else 0) ≡ self.old.count + 1 }
        ensures same { SameLists self.old self.new }
    {
        let sizes = self.volume.sizes();
        let mut tally = self.tally();
        let claimed = tally.meet(sizes, self.codes, self.findings, claim.into(), address);
        self.count = tally.count;
        self.status = tally.status;
        claimed
    }

    // The verdict.
    pub fn judge(&self, census: Census) -> Verdict
        ensures { result ≡ verdict_from self.now.status self.now.count census (length self.now.findings.now) }
    {
        judge(self.tally(), census, self.findings.len())
    }
}
