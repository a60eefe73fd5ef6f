ghost use Rattle.std.specs.Prelude.{◌≡◌};
ghost use Rattle.script.specs.Digest.{fnv_start, fnv_byte, fnv, fnv_sectors};

use disk::admit::SECTOR;
use disk::disk::{Disk, get};

const START: u64 = 0xCBF29CE484222325;

const PRIME: u64 = 0x100000001B3;

#[tactic(auto, unfolding(crate::specs::Digest::fnv_byte))]
fn with_byte(h: u64, b: u8) -> u64
    ensures { result ≡ fnv_byte h b }
{
    (h ^ b as u64).wrapping_mul(PRIME)
}

// A digest with more bytes.
fn with_bytes(start: u64, bytes: &[u8]) -> u64
    ensures { result ≡ fnv start bytes.now }
{
    bytes.iter().copied().fold(start, with_byte)
}

pub fn digest(bytes: &[u8]) -> u64
    ensures { result ≡ fnv fnv_start bytes.now }
{
    with_bytes(START, bytes)
}

// The digest of all sectors of a disk, in order. A loop, since a closure would need a clause for what `get` asks.
pub fn disk_digest<D: Disk>(d: &D) -> u64
    ensures { result ≡ fnv_sectors fnv_start (D.Disk.medium d.now).sectors }
{
    let mut h = START;
    let n = d.count();
    for s in 0..n {
        let mut sector = [0u8; SECTOR];
        get(d, s, &mut sector);
        h = with_bytes(h, &sector);
    }
    h
}
