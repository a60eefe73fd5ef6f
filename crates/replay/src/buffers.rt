use crate::findings::Findings;
use fault::finding::Finding;
use script::command::Lent;
use script::digest::digest;
use std::alloc::{AllocError, Global};

// What stands in a buffer that no call has written.
const BLANK: u8 = 0xA5;

// The lengths at the start of a script.
const SECTOR_AT_START: usize = 512;

const BLOCK_AT_START: usize = 512;

const SCRATCH_AT_START: usize = 66000;

const FINDINGS_AT_START: usize = 32;

// The buffers that a script lends, kept from call to call, and the room of the findings list.
#[derive(Debug, Drop)]
pub struct Buffers {
    // in the order of Lent
    bytes: [Vec<u8>; 3],
    room: usize,
}

fn blank(heap: Global, len: usize) -> Result<Vec<u8>, AllocError> {
    vec![in heap; BLANK; len]
}

impl Buffers {
    pub fn new(heap: Global) -> Result<Buffers, AllocError> {
        Ok(Buffers {
            bytes: [
                blank(heap, SECTOR_AT_START)?,
                blank(heap, BLOCK_AT_START)?,
                blank(heap, SCRATCH_AT_START)?,
            ],
            room: FINDINGS_AT_START,
        })
    }

    // One buffer of another length, blank.
    pub fn lend(&mut self, heap: Global, which: Lent, len: usize) -> Result<(), AllocError> {
        self.bytes[which as usize] = blank(heap, len)?;
        Ok(())
    }

    // A list of another length for the findings.
    pub fn lend_findings(&mut self, room: usize) {
        self.room = room;
    }

    // One buffer, for a call.
    pub fn bytes_mut(&mut self, which: Lent) -> &mut [u8] {
        self.bytes[which as usize].as_mut_slice()
    }

    // All buffers blank again.
    pub fn refill(&mut self) {
        for bytes in &mut self.bytes {
            bytes.as_mut_slice().fill(BLANK);
        }
    }

    // The digests of the buffers.
    pub fn digests(&self) -> [u64; 3] {
        self.bytes.each_ref().map(|bytes| digest(bytes.as_slice()))
    }

    // A list for the findings of one call; no finding of a check lies nowhere.
    pub fn fresh_findings(&self, heap: Global) -> Result<Findings, AllocError> {
        let list = vec![in heap; Finding::BLANK; self.room]?;
        Ok(Findings { list })
    }
}
