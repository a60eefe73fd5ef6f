// What a walk through the files meets: an address that heads a tree of a depth, or the next inode.
#[derive(Clone, Copy, Debug, PartialEq, Eq, Hash)]
pub enum InFile {
    Address { depth: u32, address: u32 },
    Inode,
}

// What a walk through the free list meets: the entry at an index of a member.
#[derive(Clone, Copy, Debug, PartialEq, Eq, Hash)]
pub struct Entry {
    pub index: u32,
    pub address: u32,
}

// What a check meets: a part of a file, an entry of the free list, a block, or the end of its phase. The end is a case, since one step matches it with the phase (forms in docs/DECISIONS.md).
#[derive(Clone, Copy, Debug, PartialEq, Eq, Hash)]
pub enum Met {
    InFile(InFile),
    Listed(Entry),
    Block(u32),
    End,
}
