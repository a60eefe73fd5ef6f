ghost use Rattle.std.specs.Prelude.{◌≡◌, ◌<◌, [], ◌∷◌, length, if◌then◌else◌, nat_lt, slice_index_or, slice_set, ◌↔◌, IsSome, IfSome};
ghost use Rattle.disk.specs.Medium.{ran, sector_bytes};
ghost use Rattle.disk.specs.Disks.{answer};

use disk::admit::SECTOR;
use disk::disk::Disk;
use fault::fault::Fault;

// One byte to be set in one sector.
#[derive(Clone, Copy, Debug, PartialEq, Eq, Hash)]
pub struct Poke {
    sector: u32,
    at: u32,
    byte: u8,
    ghost within: { at < sector_bytes },
}

impl Poke {
    // The byte's place lies within a sector, its value below 256.
    pub fn new(sector: u32, at: u32, byte: u32) -> Option<Poke>
        ensures valid { IsSome result ↔ ((at < sector_bytes) × (byte < 256)) }
        ensures value { IfSome result (λ p. (p.sector ≡ sector) × (p.at ≡ at) × (p.byte ≡ byte)) }
    {
        if at as usize >= SECTOR {
            return None;
        }
        let byte = u8::try_from(byte).ok()?;
        Some(Poke { sector, at, byte })
    }

    // Reads the sector, sets the byte and writes the sector again; refused as the read is.
    pub fn apply<D: Disk>(&self, d: &mut D) -> Result<(), Fault>
        ensures result { result ≡ answer sector_bytes self.now.sector (length (D.Disk.medium d.old).sectors) }
        ensures after { D.Disk.medium d.new ≡ (if nat_lt self.now.sector (length (D.Disk.medium d.old).sectors) then ran ((self.now.sector, slice_set (slice_index_or (D.Disk.medium d.old).sectors self.now.sector []) self.now.at self.now.byte) ∷ []) (D.Disk.medium d.old) else D.Disk.medium d.old) }
    {
        let mut sector = [0u8; SECTOR];
        d.read(self.sector as usize, &mut sector)?;
        sector[self.at as usize] = self.byte;
        d.write(self.sector as usize, &sector)
    }
}
