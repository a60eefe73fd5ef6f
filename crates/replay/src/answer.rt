use crate::findings::Findings;
use fault::fault::Fault;
use format::geometry::Geometry;
use std::alloc::AllocError;
use std::error::Error;
use std::fmt;
use verdict::verdict::{Census, Verdict};

// The volume that a call needs.
#[derive(Clone, Copy, Debug, PartialEq, Eq, Hash)]
pub enum Need {
    Volume,
    Found,
    Clear,
}

// What a line of a script answers.
#[derive(Debug, Drop)]
pub enum Answer {
    Done,
    Sizes(Geometry),
    Checked(Verdict, Findings),
    Digest(u64),
    Digests([u64; 3]),
}

// Why a line has no answer.
#[derive(Debug, Drop)]
pub enum Failure {
    Refused(Fault),
    NotClear(Fault, Findings),
    Needs(Need),
    Cut,
    Memory(AllocError),
}

impl From<Fault> for Failure {
    fn from(f: Fault) -> Failure {
        Failure::Refused(f)
    }
}

impl From<AllocError> for Failure {
    fn from(e: AllocError) -> Failure {
        Failure::Memory(e)
    }
}

impl fmt::Display for Need {
    fn fmt<W: fmt::Write>(&self, f: &mut fmt::Formatter<W>) -> fmt::Result {
        f.write_str(match self {
            Need::Volume => "a volume",
            Need::Found => "a found volume",
            Need::Clear => "a clear volume",
        })
    }
}

impl fmt::Display for Answer {
    fn fmt<W: fmt::Write>(&self, f: &mut fmt::Formatter<W>) -> fmt::Result {
        match self {
            Answer::Done => write!(f, "ok"),
            Answer::Sizes(sizes) => write!(f, "ok {} {}", sizes.isize(), sizes.fsize()),
            Answer::Checked(v, findings) => {
                let Census {
                    used,
                    free,
                    missing,
                } = v.census;
                write!(f, "ok status {} used {used} free {free}", v.status)?;
                write!(f, " missing {missing} findings {}{findings}", v.findings)
            }
            Answer::Digest(h) => write!(f, "{h:016X}"),
            Answer::Digests([sector, block, scratch]) => {
                write!(f, "{sector:016X} {block:016X} {scratch:016X}")
            }
        }
    }
}

impl fmt::Display for Failure {
    fn fmt<W: fmt::Write>(&self, f: &mut fmt::Formatter<W>) -> fmt::Result {
        match self {
            Failure::Refused(fault) => write!(f, "refused {fault}"),
            Failure::NotClear(fault, findings) => write!(f, "refused {fault}{findings}"),
            Failure::Needs(need) => write!(f, "needs {need}"),
            Failure::Cut => write!(f, "cut"),
            Failure::Memory(e) => write!(f, "{e}"),
        }
    }
}

impl Error for Failure {}
