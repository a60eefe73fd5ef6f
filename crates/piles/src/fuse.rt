ghost use Rattle.std.specs.Prelude.{◌≡◌};
ghost use Rattle.piles.specs.Fuses.{fused};

use disk::admit::admit;
use disk::disk::Disk;
use fault::fault::Fault;

// A fuse over a disk: after so many writes none reaches the disk below. What is handed through stands in each disk over a disk: a shared one, generic in what a write does, would be longer.
#[derive(Clone, Debug, PartialEq, Eq, Hash, Drop)]
pub struct Fuse<D> {
    pub(crate) below: D,
    writes: u32,
}

impl<D> Fuse<D> {
    pub fn new(below: D, writes: u32) -> Fuse<D>
        ensures over { result.below ≡ below }
        ensures holds { result.writes ≡ writes }
    {
        Fuse { below, writes }
    }

    // The writes that the fuse still lets through.
    pub fn left(&self) -> u32
        ensures { result ≡ self.now.writes }
    {
        self.writes
    }

    // A new fuse over the same disk.
    pub fn set(&mut self, writes: u32)
        ensures holds { self.new.writes ≡ writes }
        ensures over { self.new.below ≡ self.old.below }
    {
        self.writes = writes;
    }

    pub fn below(&self) -> &D
        ensures { result.now ≡ self.now.below }
    {
        &self.below
    }
}

impl<D: Disk> Disk for Fuse<D> {
    ghost medium = { λ f. fused f.writes (D.Disk.medium f.below) };

    fn count(&self) -> usize {
        self.below.count()
    }

    fn read(&self, s: usize, buf: &mut [u8]) -> Result<(), Fault> {
        self.below.read(s, buf)
    }

    fn write(&mut self, s: usize, buf: &[u8]) -> Result<(), Fault> {
        admit(buf.len(), s, self.below.count())?;
        let Some(rest) = self.writes.checked_sub(1) else {
            return Ok(());
        };
        self.writes = rest;
        self.below.write(s, buf)
    }
}
