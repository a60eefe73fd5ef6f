ghost use Rattle.std.specs.Prelude.{◌≡◌};
ghost use Rattle.tally.specs.Claims.{code_of_claim, claimant_of, bad_of, again_of};

use crate::tally;
use fault::finding::{Finding, Kind};
use fault::place::Place;

// Who claims a block: a file, or the free list, which lists it.
#[derive(Clone, Copy, Debug, PartialEq, Eq, Hash)]
pub enum Claimant {
    File,
    FreeList,
}

// The code that a claim leaves.
impl From<Claimant> for u8 {
    ghost from_gives = { λ c r. r ≡ code_of_claim c };

    fn from(claimant: Claimant) -> u8 {
        match claimant {
            Claimant::File => 1,
            Claimant::FreeList => 2,
        }
    }
}

impl Claimant {
    // Whose claim a code stands for; 0 stands for none.
    pub fn of(code: u8) -> Option<Claimant>
        ensures { result ≡ claimant_of code }
    {
        match code {
            0 => None,
            1 => Some(Claimant::File),
            _ => Some(Claimant::FreeList),
        }
    }

    // The finding where the address is no data block.
    pub fn bad(self) -> Kind
        ensures { result ≡ bad_of self }
    {
        match self {
            Claimant::File => Kind::BadAddress,
            Claimant::FreeList => Kind::BadEntry,
        }
    }

    // The finding where the block has a claim already.
    pub fn again(self) -> Kind
        ensures { result ≡ again_of self }
    {
        match self {
            Claimant::File => Kind::SecondClaim,
            Claimant::FreeList => Kind::SecondEntry,
        }
    }
}

// A claim: who makes it, and where it stands.
#[derive(Clone, Copy, Debug, PartialEq, Eq, Hash)]
pub struct Claim {
    pub by: Claimant,
    pub place: Place,
}

impl Claim {
    // A finding of this claim.
    pub fn finding(self, kind: Kind, address: u32) -> Finding
        ensures { result ≡ record { kind = kind; address = address; place = self.place } }
    {
        Finding {
            kind,
            address,
            place: self.place,
        }
    }
}

// What the claim leaves and notes.
impl From<Claim> for tally::Claim {
    ghost from_gives = { λ c r. r ≡ record { code = code_of_claim c.by; bad = bad_of c.by; again = again_of c.by; place = c.place } };

    fn from(claim: Claim) -> tally::Claim {
        tally::Claim {
            code: u8::from(claim.by),
            bad: claim.by.bad(),
            again: claim.by.again(),
            place: claim.place,
        }
    }
}
