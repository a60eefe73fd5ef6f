ghost use Rattle.std.specs.Prelude.{◌≡◌};
ghost use Rattle.disk.specs.Disks.{answer};

use fault::fault::Fault;

// The bytes of a sector.
pub const SECTOR: usize = 512;

pub type Sector = [u8; SECTOR];

// Refuses a buffer that has not the size of a sector, then a sector beyond the end.
pub fn admit(len: usize, s: usize, count: usize) -> Result<(), Fault>
    ensures { result ≡ answer len s count }
{
    if len != SECTOR {
        return Err(Fault::disk_buffer());
    }
    if s >= count {
        return Err(Fault::beyond(s));
    }
    Ok(())
}
