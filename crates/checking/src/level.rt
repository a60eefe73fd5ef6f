ghost use Rattle.std.specs.Prelude.{◌≡◌, ◌+◌, ◌<◌, ◌≤◌, [], MatchOption, slice_index_or};
ghost use Rattle.fault.specs.declared.place.Place.{Place};
ghost use Rattle.format.specs.Layout.{table_width};
ghost use Rattle.verdict.specs.Scan.{Scan, table_entry};
ghost use Rattle.format.specs.Area.{Area};
ghost use Rattle.checking.specs.Tables.{ahead, at_start, open_left, open_after, below, AddressReady, ShutBelow, open_turns, opened};

use disk::disk::Disk;
use format::layout::{Block, TABLE_WIDTH};
use format::number::Number;
use format::on_disk::OnDisk;
use format::table::TableEntry;

// A table, and the index of its next entry; at its end it is closed, so that no contract has a case for a table that is not open.
#[derive(Clone, Copy, Debug, PartialEq, Eq, Hash)]
pub struct Level {
    pub table: Block,
    pub next: u32,
}

// The open tables, one a depth: three records, by the forms in docs/DECISIONS.md, so that each is named where it is met or opened.
#[derive(Clone, Copy, Debug, PartialEq, Eq, Hash)]
pub struct Open {
    pub one: Level,
    pub two: Level,
    pub three: Level,
}

impl Level {
    // The next address of the table, unless it is closed.
    fn next(&mut self) -> Option<u32>
        ensures { MatchOption result ((table_width ≤ self.old.next) × (self.new ≡ self.old)) (λ a. (self.old.next < table_width) × (a ≡ table_entry self.old.table self.old.next) × (self.new ≡ ahead self.old)) }
    {
        if self.next >= TABLE_WIDTH {
            return None;
        }
        let address = TableEntry(self.next).get(&self.table);
        self.next += 1;
        Some(address)
    }

    // Opens the table in a block.
    fn open<D: Disk>(&mut self, volume: &OnDisk<'_, D>, block: u32)
        requires { block < volume.now.sizes.fsize }
        ensures { self.new ≡ at_start (slice_index_or volume.now.sectors block []) }
    {
        volume.read(block, &mut self.table);
        self.next = 0;
    }
}

impl Open {
    // The next address of the innermost open table, with the depth of the tree that it heads; the walk makes them what it meets.
    pub fn next(&mut self) -> Option<(u32, u32)>
        ensures left { (v : Area) (p : Place) (s : Scan) → open_left v p self.old s ≡ open_after result v p self.new s }
        ensures ready { AddressReady result self.new }
        ensures turns { open_turns self.new + opened result ≡ open_turns self.old }
    {
        if let Some(address) = self.one.next() {
            return Some((0, address));
        }
        if let Some(address) = self.two.next() {
            return Some((1, address));
        }
        if let Some(address) = self.three.next() {
            return Some((2, address));
        }
        None
    }

    // Opens the table at the head of a tree of a depth; one of depth 0 has none.
    pub fn open<D: Disk>(&mut self, volume: &OnDisk<'_, D>, depth: u32, block: u32)
        requires block { block < volume.now.sizes.fsize }
        requires depth { depth ≤ 3 }
        requires shut { ShutBelow depth self.old }
        ensures left { (p : Place) (s : Scan) → open_left volume.now p self.new s ≡ open_left volume.now p self.old (below volume.now p depth (slice_index_or volume.now.sectors block []) s) }
        ensures turns { open_turns self.new ≤ open_turns self.old + table_width }
    {
        match depth {
            1 => self.one.open(volume, block),
            2 => self.two.open(volume, block),
            3 => self.three.open(volume, block),
            _ => {}
        }
    }
}
