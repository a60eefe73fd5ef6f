ghost use Rattle.std.specs.Prelude.{◌≡◌, ◌+◌, ◌-◌, ◌^◌, min, [], ◌∷◌, length, if◌then◌else◌};
ghost use Rattle.disk.specs.Medium.{ran};
ghost use Rattle.disk.specs.Disks.{serves, answer};

use disk::disk::Disk;
use fault::fault::Fault;

// A disk that counts the writes asked of it; all else is as below.
#[derive(Clone, Debug, PartialEq, Eq, Hash, Drop)]
pub struct Meter<D> {
    pub below: D,
    asked: u64,
}

impl<D> Meter<D> {
    pub fn new(below: D) -> Meter<D>
        ensures over { result.below ≡ below }
        ensures none { result.asked ≡ 0 }
    {
        Meter { below, asked: 0 }
    }

    // Counts from 0 again.
    pub fn restart(&mut self)
        ensures none { self.new.asked ≡ 0 }
        ensures over { self.new.below ≡ self.old.below }
    {
        self.asked = 0;
    }

    pub fn asked(&self) -> u64
        ensures { result ≡ self.now.asked }
    {
        self.asked
    }
}

impl<D: Disk> Disk for Meter<D> {
    ghost medium = { λ m. D.Disk.medium m.below };

    fn count(&self) -> usize {
        self.below.count()
    }

    fn read(&self, s: usize, buf: &mut [u8]) -> Result<(), Fault> {
        self.below.read(s, buf)
    }

    fn write(&mut self, s: usize, buf: &[u8]) -> Result<(), Fault>
        ensures result { result ≡ answer (length buf.now) s (length (D.Disk.medium self.old.below).sectors) }
        ensures after { D.Disk.medium self.new.below ≡ (if serves (length buf.now) s (length (D.Disk.medium self.old.below).sectors) then ran ((s, buf.now) ∷ []) (D.Disk.medium self.old.below) else D.Disk.medium self.old.below) }
        ensures counted { self.new.asked ≡ (if serves (length buf.now) s (length (D.Disk.medium self.old.below).sectors) then min (self.old.asked + 1) (2 ^ 64 - 1) else self.old.asked) }
    {
        self.below.write(s, buf)?;
        self.asked = self.asked.saturating_add(1);
        Ok(())
    }
}
