use fault::status::Status;

// How many data blocks are claimed by files, listed as free, and neither.
#[derive(Clone, Copy, Debug, Default, PartialEq, Eq, Hash)]
pub struct Census {
    pub used: u32,
    pub free: u32,
    pub missing: u32,
}

// What the check answers: the status, the census, and the number of all findings.
#[derive(Clone, Copy, Debug, PartialEq, Eq, Hash)]
pub struct Verdict {
    pub status: Status,
    pub census: Census,
    pub findings: u32,
}
