ghost use Rattle.std.specs.Prelude.{◌≡◌, ℕ, ◌+◌, ◌^◌, ◌<◌, false, List, length, if◌then◌else◌, bit_or};
ghost use Rattle.fault.specs.Findings.{status_bit};
ghost use Rattle.verdict.specs.Scan.{noted, note, met, opens};
ghost use Rattle.tally.specs.Tallies.{scan_of};
ghost use Rattle.tally.specs.Notes.{unclaimed};

use crate::codes::{code_of, set_code};
use fault::finding::{Finding, Kind};
use fault::place::Place;
use fault::status::Status;
use format::geometry::Geometry;

// The number of all findings, and the status of their kinds.
#[derive(Clone, Copy, Debug, PartialEq, Eq, Hash)]
pub struct Tally {
    pub count: u32,
    pub status: Status,
}

// What a claim leaves and notes: the code of the block, the kinds of the findings, and where it stands.
#[derive(Clone, Copy, Debug, PartialEq, Eq, Hash)]
pub struct Claim {
    pub code: u8,
    pub bad: Kind,
    pub again: Kind,
    pub place: Place,
}

impl Tally {
    pub fn new() -> Tally
        ensures { result ≡ record { count = 0; status = 0 } }
    {
        Tally {
            count: 0,
            status: Status::CLEAN,
        }
    }

    // One more finding; a list that is full keeps the first.
    pub fn note(&mut self, findings: &mut [Finding], finding: Finding)
        requires { self.old.count + 1 < 2 ^ 32 }
        ensures findings { findings.new ≡ noted findings.old self.old.count finding }
        ensures count { self.new.count ≡ self.old.count + 1 }
        ensures status { self.new.status ≡ bit_or self.old.status (status_bit finding.kind) }
    {
        // An index: after `get_mut` the list that both arms leave is not told apart, and the clause on it stays open.
        let at = self.count as usize;
        if at < findings.len() {
            findings[at] = finding;
        }
        self.count += 1;
        self.status = self.status.with(finding.kind.bit());
    }

    // Notes an address that cannot be claimed.
    fn refuse(&mut self, findings: &mut [Finding], kind: Kind, address: u32, place: Place) -> bool
        requires { self.old.count + 1 < 2 ^ 32 }
        ensures refused { result ≡ false }
        ensures scan { (cs : List ℕ) → scan_of self.new cs findings.new ≡ note kind address place (scan_of self.old cs findings.old) }
        ensures count { self.new.count ≡ self.old.count + 1 }
    {
        self.note(
            findings,
            Finding {
                kind,
                address,
                place,
            },
        );
        false
    }

    // Claims a data block that nothing has claimed; any other address is a finding. Says whether it claimed.
    pub fn meet(
        &mut self,
        sizes: Geometry,
        codes: &mut [u8],
        findings: &mut [Finding],
        claim: Claim,
        address: u32,
    ) -> bool
        requires count { self.old.count + 1 < 2 ^ 32 }
        requires codes { length codes.old ≡ sizes.fsize }
        requires claims { 0 < claim.code }
        ensures opens { result ≡ opens sizes.isize sizes.fsize address codes.old }
        ensures scan { scan_of self.new codes.new findings.new ≡ met sizes.isize sizes.fsize claim.code claim.bad claim.again claim.place address (scan_of self.old codes.old findings.old) }
        ensures unclaimed { unclaimed codes.new + (if result then 1 else 0) ≡ unclaimed codes.old }
        ensures count { self.new.count + (if result then 1 else 0) ≡ self.old.count + 1 }
    {
        if !sizes.data_blocks().contains(&address) {
            return self.refuse(findings, claim.bad, address, claim.place);
        }
        if code_of(codes, address) != 0 {
            return self.refuse(findings, claim.again, address, claim.place);
        }
        set_code(codes, address, claim.code);
        true
    }
}
