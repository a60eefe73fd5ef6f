ghost use Rattle.std.specs.Prelude.{◌≡◌};
ghost use Rattle.rules.specs.Calls.{lookup, find_answer};
ghost use Rattle.rules.specs.Calls.{done};
ghost use Rattle.rules.specs.Runs.{find as find_call, close as close_call};
ghost use Rattle.rules.specs.Promises.{CarriesOn};
ghost use Rattle.disk.specs.Medium.{Medium};
ghost use Rattle.volume.specs.Answers.{find_says, sizes_of};

use crate::held::{Clear, Found};
use crate::identify::look_up;
use disk::disk::Disk;
use fault::fault::Fault;
use format::layout::BLOCK_BYTES;

// Finds the volume on a disk. Refused with 5 where there is no superblock, with 7 where sizes or type are unlawful or the volume does not fit.
pub fn find<D: Disk>(d: &D) -> Result<Found, Fault>
    ensures answer { find_says result ≡ find_answer (lookup (D.Disk.medium d.now).sectors) }
    ensures runs { CarriesOn find_call (D.Disk.medium d.now) (find_says result) (D.Disk.medium d.now) }
{
    let mut sb = [0; BLOCK_BYTES];
    let volume = look_up(d, &mut sb)?;
    Ok(Found {
        sizes: volume.sizes(),
    })
}

impl Clear {
    // Makes the volume found again.
    pub fn close(self) -> Found
        ensures sizes { sizes_of result.sizes ≡ sizes_of self.sizes }
        ensures runs { (m : Medium) → CarriesOn close_call m done m }
    {
        let Clear { sizes } = self;
        Found { sizes }
    }
}
