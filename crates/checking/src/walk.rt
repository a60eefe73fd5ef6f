ghost use Rattle.std.specs.Prelude.{◌≡◌, ℕ, ◌+◌, ◌*◌, ◌^◌, ◌<◌, ◌≤◌, List, length};
ghost use Rattle.format.specs.Sizes.{inodes_of};
ghost use Rattle.verdict.specs.Scan.{Scan, check};
ghost use Rattle.format.specs.Area.{Area};
ghost use Rattle.tally.specs.Notes.{scan_of, SameLists};
ghost use Rattle.checking.specs.FilesLeft.{Numbered, claim_turns};
ghost use Rattle.checking.specs.Resume.{resume, after, Ready, worth, effort, spent, Sound, next_left, NextReady, next_worth};

use crate::files::FileWalk;
use crate::list::ListWalk;
use crate::met::Met;
use disk::disk::Disk;
use format::layout::SUPERBLOCK;
use format::on_disk::OnDisk;
use tally::census::count;
use tally::notes::Notes;
use verdict::verdict::Census;

#[derive(Clone, Copy, Debug, PartialEq, Eq, Hash)]
pub enum Phase {
    Files,
    Free,
    Missing,
}

// The walk of a check: the phase it is in, where each phase stands, and the blocks that it has counted. One step matches the phase with what was met (forms in docs/DECISIONS.md), so the phases lie side by side. Inode, slot, entry and block are counted, since each is where a step stops and the next goes on.
#[derive(Clone, Copy, Debug, PartialEq, Eq, Hash)]
pub struct Walk {
    pub phase: Phase,
    pub files: FileWalk,
    pub list: ListWalk,
    pub block: u32,
    pub census: Census,
}

impl Walk {
    pub fn new() -> Walk
        ensures left { (v : Area) (s : Scan) → resume v result s ≡ check v.sectors v.sizes.isize v.sizes.fsize s }
        ensures effort { (v : Area) (cs : List ℕ) → effort v result cs ≡ 14 * inodes_of v.sizes.isize + claim_turns cs + v.sizes.fsize + 53 }
        ensures sound { (v : Area) (cs : List ℕ) → length cs ≤ v.sizes.fsize → Sound v result cs }
        ensures spent { (n : ℕ) → spent n result ≡ n }
    {
        Walk {
            phase: Phase::Files,
            files: FileWalk::new(),
            list: ListWalk::new(),
            block: 0,
            census: Census::default(),
        }
    }

    // What comes next, if anything does.
    pub fn next<D: Disk>(&mut self, volume: &OnDisk<'_, D>) -> Option<Met>
        requires { Numbered volume.now self.old.files }
        ensures left { (s : Scan) → resume volume.now self.old s ≡ next_left result volume.now self.new s }
        ensures ready { NextReady result volume.now self.new }
        ensures effort { (cs : List ℕ) → effort volume.now self.new cs + next_worth result ≤ effort volume.now self.old cs }
        ensures sound { (cs : List ℕ) → Sound volume.now self.old cs → Sound volume.now self.new cs }
        ensures census { self.new.census ≡ self.old.census }
    {
        match self.phase {
            Phase::Files => Some(self.files.next(volume).map_or(Met::End, Met::InFile)),
            Phase::Free => Some(self.list.next().map_or(Met::End, Met::Listed)),
            Phase::Missing => {
                let block = self.block;
                if block >= volume.sizes().fsize() {
                    return None;
                }
                self.block = block + 1;
                Some(Met::Block(block))
            }
        }
    }

    // One step, by the phase and what was met.
    pub fn step<D: Disk>(&mut self, notes: &mut Notes<'_, D>, met: Met)
        requires ready { Ready met notes.old.volume.now self.old }
        requires sound { Sound notes.old.volume.now self.old notes.old.codes.now }
        requires spent { spent notes.old.count self.old + 2 < 2 ^ 32 }
        ensures left { resume notes.old.volume.now self.new (scan_of notes.new) ≡ after met notes.old.volume.now self.old (scan_of notes.old) }
        ensures sound { Sound notes.old.volume.now self.new notes.new.codes.now }
        ensures effort { effort notes.old.volume.now self.new notes.new.codes.now < effort notes.old.volume.now self.old notes.old.codes.now + worth met }
        ensures spent { spent notes.new.count self.new + effort notes.old.volume.now self.new notes.new.codes.now ≤ spent notes.old.count self.old + effort notes.old.volume.now self.old notes.old.codes.now + worth met }
        ensures same { SameLists notes.old notes.new }
    {
        match (self.phase, met) {
            (Phase::Files, Met::InFile(met)) => self.files.step(notes, met),
            (Phase::Files, Met::End) => {
                self.phase = Phase::Free;
                self.list = ListWalk::new();
                self.list.enter(notes, SUPERBLOCK);
            }
            (Phase::Free, Met::Listed(entry)) => self.list.enlist(notes, entry),
            (Phase::Free, Met::End) => {
                self.phase = Phase::Missing;
                self.block = notes.volume.sizes().isize();
                self.census = Census::default();
            }
            (Phase::Missing, Met::Block(block)) => count(&mut self.census, notes.code(block)),
            _ => {}
        }
    }
}
