ghost use Rattle.std.specs.Prelude.{◌≡◌, ◌+◌, ◌*◌, ◌^◌, ◌<◌, ◌≤◌};
ghost use Rattle.format.specs.Layout.{slots};
ghost use Rattle.format.specs.Sizes.{inodes_of};
ghost use Rattle.verdict.specs.Scan.{Scan};
ghost use Rattle.format.specs.Area.{Area};
ghost use Rattle.tally.specs.Notes.{scan_of, unclaimed, SameLists};
ghost use Rattle.checking.specs.declared.met.InFile.TheVariants.{Address, Inode as AnInode};

use crate::level::{Level, Open};
use crate::met::InFile;
use disk::disk::Disk;
use fault::finding::{Finding, Kind};
use fault::place::Place;
use format::inode::{Inode, InodeType, Part, type_bits};
use format::layout::{BLOCK_BYTES, Block, DIRECT_SLOTS, SLOTS, TABLE_WIDTH};
use format::number::Number;
use format::on_disk::OnDisk;
use tally::claim::{Claim, Claimant};
use tally::notes::Notes;

// The walk through the files: the open tables, the inode with its block, its next slot, and the place of the slot before it. Only an inode that has begun has slots left.
#[derive(Clone, Copy, Debug, PartialEq, Eq, Hash)]
pub struct FileWalk {
    pub open: Open,
    pub node: Block,
    pub inode: u32,
    pub slot: u32,
    pub at: Place,
    ghost begun: { slot < slots → 0 < inode },
}

impl FileWalk {
    ghost use Rattle.checking.specs.FilesLeft.{files_from, files_left, files_after, FilesReady, Numbered, file_turns, claim_turns, file_worth};

    // Nothing is open, and no inode has begun: number 0, which no inode has. An option of an inode would stand in each contract of the walk.
    pub fn new() -> FileWalk
        ensures left { (v : Area) (s : Scan) → files_left v result s ≡ files_from v 0 s }
        ensures turns { (v : Area) → file_turns v result ≡ 14 * inodes_of v.sizes.isize }
        ensures numbered { (v : Area) → Numbered v result }
    {
        let closed = Level {
            table: [0; BLOCK_BYTES],
            next: TABLE_WIDTH,
        };
        FileWalk {
            open: Open {
                one: closed,
                two: closed,
                three: closed,
            },
            node: [0; BLOCK_BYTES],
            inode: 0,
            slot: SLOTS,
            at: Place::Nowhere,
        }
    }

    // What comes next, if anything does: the innermost open table is advanced.
    pub fn next<D: Disk>(&mut self, volume: &OnDisk<'_, D>) -> Option<InFile>
        requires { Numbered volume.now self.old }
        ensures left { (s : Scan) → files_left volume.now self.old s ≡ files_after result volume.now self.new s }
        ensures ready { FilesReady result self.new }
        ensures turns { file_turns volume.now self.new + file_worth result ≤ file_turns volume.now self.old }
        ensures numbered { Numbered volume.now self.new }
    {
        if let Some((depth, address)) = self.open.next() {
            return Some(InFile::Address { depth, address });
        }
        if self.slot < SLOTS {
            let inode = self.inode;
            let slot = self.slot;
            self.slot = slot + 1;
            self.at = Place::Slot { inode, slot };
            let address = Inode::new(inode).part(Part::Slot(slot)).get(&self.node);
            return Some(InFile::Address {
                depth: slot.saturating_sub(DIRECT_SLOTS - 1),
                address,
            });
        }
        if self.inode < volume.sizes().inodes() {
            self.inode += 1;
            return Some(InFile::Inode);
        }
        None
    }

    // One step, by what was met.
    pub fn step<D: Disk>(&mut self, notes: &mut Notes<'_, D>, met: InFile)
        requires count { notes.old.count + 1 < 2 ^ 32 }
        requires ready { FilesReady (Some met) self.old }
        requires numbered { Numbered notes.old.volume.now self.old }
        ensures left { files_left notes.old.volume.now self.new (scan_of notes.new) ≡ files_after (Some met) notes.old.volume.now self.old (scan_of notes.old) }
        ensures turns { file_turns notes.old.volume.now self.new + claim_turns notes.new.codes.now < file_turns notes.old.volume.now self.old + claim_turns notes.old.codes.now + file_worth (Some met) }
        ensures count { notes.new.count + (file_turns notes.old.volume.now self.new + claim_turns notes.new.codes.now) ≤ notes.old.count + (file_turns notes.old.volume.now self.old + claim_turns notes.old.codes.now) + file_worth (Some met) }
        ensures unclaimed { unclaimed notes.new.codes.now ≤ unclaimed notes.old.codes.now }
        ensures numbered { Numbered notes.old.volume.now self.new }
        ensures same { SameLists notes.old notes.new }
    {
        match met {
            InFile::Address { depth, address } => self.follow(notes, depth, address),
            InFile::Inode => self.begin(notes),
        }
    }

    // Claims an address that was met, and opens its table where it heads one; what cannot be claimed is not followed.
    fn follow<D: Disk>(&mut self, notes: &mut Notes<'_, D>, depth: u32, address: u32)
        requires count { notes.old.count + 1 < 2 ^ 32 }
        requires ready { FilesReady (Some (Address depth address)) self.old }
        requires numbered { Numbered notes.old.volume.now self.old }
        ensures left { files_left notes.old.volume.now self.new (scan_of notes.new) ≡ files_after (Some (Address depth address)) notes.old.volume.now self.old (scan_of notes.old) }
        ensures turns { file_turns notes.old.volume.now self.new + claim_turns notes.new.codes.now ≤ file_turns notes.old.volume.now self.old + claim_turns notes.old.codes.now }
        ensures count { notes.new.count + (file_turns notes.old.volume.now self.new + claim_turns notes.new.codes.now) ≤ notes.old.count + (file_turns notes.old.volume.now self.old + claim_turns notes.old.codes.now) + 1 }
        ensures unclaimed { unclaimed notes.new.codes.now ≤ unclaimed notes.old.codes.now }
        ensures numbered { Numbered notes.old.volume.now self.new }
        ensures same { SameLists notes.old notes.new }
    {
        if address == 0 {
            return;
        }
        let claim = Claim {
            by: Claimant::File,
            place: self.at,
        };
        if !notes.meet(claim, address) {
            return;
        }
        self.open.open(notes.volume, depth, address);
    }

    // Takes up the inode that was met: regular files and directories claim blocks, an unknown type is a finding.
    fn begin<D: Disk>(&mut self, notes: &mut Notes<'_, D>)
        requires count { notes.old.count + 1 < 2 ^ 32 }
        requires ready { FilesReady (Some AnInode) self.old }
        requires numbered { Numbered notes.old.volume.now self.old }
        ensures left { files_left notes.old.volume.now self.new (scan_of notes.new) ≡ files_after (Some AnInode) notes.old.volume.now self.old (scan_of notes.old) }
        ensures turns { file_turns notes.old.volume.now self.new ≤ file_turns notes.old.volume.now self.old + slots }
        ensures count { notes.new.count + file_turns notes.old.volume.now self.new ≤ notes.old.count + file_turns notes.old.volume.now self.old + slots }
        ensures numbered { Numbered notes.old.volume.now self.new }
        ensures codes { notes.new.codes.now ≡ notes.old.codes.now }
        ensures same { SameLists notes.old notes.new }
    {
        let inode = self.inode;
        let node = Inode::new(inode);
        notes.volume.read(node.block(), &mut self.node);
        let mode = node.part(Part::Mode).get(&self.node);
        // All types stand here, so that none is forgotten; `claims_blocks` would hide two of them.
        match InodeType::of_mode(mode) {
            InodeType::Regular | InodeType::Directory => self.slot = 0,
            InodeType::Unused | InodeType::Special => {}
            InodeType::Unknown => notes.note(Finding {
                kind: Kind::UnknownType,
                address: type_bits(mode),
                place: Place::Slot { inode, slot: 0 },
            }),
        }
    }
}
