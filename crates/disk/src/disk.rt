ghost use Rattle.std.specs.Prelude.{◌≡◌, ◌<◌, [], ◌∷◌, length, if◌then◌else◌, slice_index_or};
ghost use Rattle.disk.specs.Medium.{Medium, Sized, ran};
ghost use Rattle.disk.specs.Disks.{serves, answer};

use crate::admit::Sector;
use fault::fault::Fault;

// A row of sectors of 512 bytes. It means its sectors, and a power: the number of writes that can still reach it.
pub trait Disk {
    ghost medium: { Self → Medium };

    // The number of sectors.
    fn count(&self) -> usize
        ensures is { result ≡ length (medium self.now).sectors }
        ensures sized { Sized (medium self.now).sectors };

    // Reads sector s; a buffer that has not the size of a sector is refused, then a sector beyond the end.
    fn read(&self, s: usize, buf: &mut [u8]) -> Result<(), Fault>
        ensures result { result ≡ answer (length buf.old) s (length (medium self.now).sectors) }
        ensures buffer { buf.new ≡ (if serves (length buf.old) s (length (medium self.now).sectors) then slice_index_or (medium self.now).sectors s [] else buf.old) };

    // Writes sector s for one of the power; without power the write is taken and lost. The refusals are those of a read.
    fn write(&mut self, s: usize, buf: &[u8]) -> Result<(), Fault>
        ensures result { result ≡ answer (length buf.now) s (length (medium self.old).sectors) }
        ensures after { medium self.new ≡ (if serves (length buf.now) s (length (medium self.old).sectors) then ran ((s, buf.now) ∷ []) (medium self.old) else medium self.old) };
}

// A write that is known to be served.
pub fn put<D: Disk>(d: &mut D, s: usize, b: &Sector)
    requires { s < length (D.Disk.medium d.old).sectors }
    ensures { D.Disk.medium d.new ≡ ran ((s, b.now) ∷ []) (D.Disk.medium d.old) }
{
    let _ = d.write(s, b);
}

// A read that is known to be served.
pub fn get<D: Disk>(d: &D, s: usize, b: &mut Sector)
    requires { s < length (D.Disk.medium d.now).sectors }
    ensures { b.new ≡ slice_index_or (D.Disk.medium d.now).sectors s [] }
{
    let _ = d.read(s, b);
}
