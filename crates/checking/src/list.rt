ghost use Rattle.std.specs.Prelude.{◌≡◌, ◌+◌, ◌^◌, ◌<◌, ◌≤◌};
ghost use Rattle.format.specs.Layout.{list_room};
ghost use Rattle.verdict.specs.Scan.{Scan, count_of, entry_of};
ghost use Rattle.scan.specs.Left.{onward};
ghost use Rattle.format.specs.Area.{Area};
ghost use Rattle.tally.specs.Notes.{scan_of, SameLists};
ghost use Rattle.checking.specs.FilesLeft.{claim_turns};

use crate::met::Entry;
use disk::disk::Disk;
use fault::finding::{Finding, Kind};
use fault::place::Place;
use format::layout::{BLOCK_BYTES, Block, LIST_ROOM};
use format::number::Number;
use format::superblock::Field;
use format::table::MemberField;
use tally::claim::{Claim, Claimant};
use tally::notes::Notes;

// The superblock. The number of a member tells which part it is in two small functions; findings name members by it.
const FIRST_MEMBER: u32 = 1;

// How many entries a member has.
fn count_in(node: &Block, member: u32) -> u32
    ensures { result ≡ count_of member node.now }
{
    if member == FIRST_MEMBER {
        Field::Nfree.get(node)
    } else {
        MemberField::Count.get(node)
    }
}

fn entry_in(node: &Block, member: u32, index: u32) -> u32
    requires { index < list_room }
    ensures { result ≡ entry_of member node.now index }
{
    if member == FIRST_MEMBER {
        Field::Free(index as usize).get(node)
    } else {
        MemberField::Entry(index as usize).get(node)
    }
}

// The walk through the free list: a member with its block, and how many of its entries are left.
#[derive(Clone, Copy, Debug, PartialEq, Eq, Hash)]
pub struct ListWalk {
    pub node: Block,
    pub member: u32,
    pub left: u32,
    ghost room: { left ≤ list_room },
}

impl ListWalk {
    ghost use Rattle.checking.specs.ListLeft.{list_left, list_after, ListReady, Linked, list_worth};

    // Before the superblock, which is member 1.
    pub fn new() -> ListWalk
        ensures { (result.member ≡ 0) × (result.left ≡ 0) }
    {
        ListWalk {
            node: [0; BLOCK_BYTES],
            member: 0,
            left: 0,
        }
    }

    // What comes next: the last entry that is left.
    pub fn next(&mut self) -> Option<Entry>
        ensures left { (v : Area) (s : Scan) → list_left v self.old s ≡ list_after result v self.new s }
        ensures ready { ListReady result self.new }
        ensures turns { self.new.left + list_worth result ≡ self.old.left }
        ensures member { self.new.member ≡ self.old.member }
    {
        let index = self.left.checked_sub(1)?;
        self.left = index;
        Some(Entry {
            index,
            address: entry_in(&self.node, self.member, index),
        })
    }

    // Takes up the next member; a count above its room is a finding and ends the list.
    pub fn enter<D: Disk>(&mut self, notes: &mut Notes<'_, D>, block: u32)
        requires block { block < notes.old.volume.now.sizes.fsize }
        requires count { notes.old.count + 1 < 2 ^ 32 }
        requires member { self.old.member ≤ notes.old.volume.now.sizes.fsize }
        ensures left { list_left notes.old.volume.now self.new (scan_of notes.new) ≡ onward notes.old.volume.now.sectors notes.old.volume.now.sizes.isize notes.old.volume.now.sizes.fsize self.old.member block (scan_of notes.old) }
        ensures member { self.new.member ≡ self.old.member + 1 }
        ensures count { notes.new.count ≤ notes.old.count + 1 }
        ensures codes { notes.new.codes.now ≡ notes.old.codes.now }
        ensures same { SameLists notes.old notes.new }
    {
        notes.volume.read(block, &mut self.node);
        let member = self.member + 1;
        let count = count_in(&self.node, member);
        self.member = member;
        if count > LIST_ROOM {
            self.left = 0;
            notes.note(Finding {
                kind: Kind::CountTooLarge,
                address: count,
                place: Place::Member(member),
            });
        } else {
            self.left = count;
        }
    }

    // Lists an entry that was met; at index 0 a zero ends the list, and a block that could be listed leads on.
    pub fn enlist<D: Disk>(&mut self, notes: &mut Notes<'_, D>, entry: Entry)
        requires count { notes.old.count + 2 < 2 ^ 32 }
        requires ready { ListReady (Some entry) self.old }
        requires linked { Linked notes.old.volume.now self.old notes.old.codes.now }
        ensures left { list_left notes.old.volume.now self.new (scan_of notes.new) ≡ list_after (Some entry) notes.old.volume.now self.old (scan_of notes.old) }
        ensures linked { Linked notes.old.volume.now self.new notes.new.codes.now }
        ensures turns { self.new.left + claim_turns notes.new.codes.now ≤ self.old.left + claim_turns notes.old.codes.now }
        ensures count { notes.new.count + (self.new.left + claim_turns notes.new.codes.now) ≤ notes.old.count + (self.old.left + claim_turns notes.old.codes.now) + 1 }
        ensures same { SameLists notes.old notes.new }
    {
        let Entry { index, address } = entry;
        if index == 0 && address == 0 {
            return;
        }
        let claim = Claim {
            by: Claimant::FreeList,
            place: Place::Member(self.member),
        };
        if !notes.meet(claim, address) {
            return;
        }
        if index == 0 {
            self.enter(notes, address);
        }
    }
}
