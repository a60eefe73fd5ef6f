ghost use Rattle.std.specs.Prelude.{◌≡◌, ◌≤◌, length, IfOk};
ghost use Rattle.rules.specs.Calls.{may_clear, clear_answer, scratch_after, findings_after};
ghost use Rattle.rules.specs.Runs.{clear as clear_call};
ghost use Rattle.rules.specs.Promises.{CarriesOn};
ghost use Rattle.volume.specs.Answers.{looked_up, clear_says, make_says, cleared_sizes, sizes_of};

use crate::check::may_check;
use crate::held::{Clear, Found, NotCleared};
use checking::run::run_check;
use disk::disk::Disk;
use fault::fault::Fault;
use fault::finding::Finding;
use fault::refusal::Refusal;
use format::geometry::Geometry;
use format::layout::BLOCK_BYTES;
use format::on_disk::OnDisk;
use format::superblock::{OPEN, flock};

// The tests before the check of a clear, in their order: 5, 7, 8, 3, 9.
fn may_clear<'d, D: Disk>(d: &'d D, held: Geometry, scratch: usize) -> Result<OnDisk<'d, D>, Fault>
    ensures answer { looked_up result ≡ may_clear (sizes_of held) scratch (D.Disk.medium d.now).sectors }
    ensures room { IfOk result (λ v. (v.sectors ≡ (D.Disk.medium d.now).sectors) × (v.sizes.fsize ≤ scratch)) }
{
    let mut sb = [0; BLOCK_BYTES];
    let volume = may_check(d, held, scratch, &mut sb)?;
    if flock(&sb) != OPEN {
        return Err(Fault::from(Refusal::Locked));
    }
    Ok(volume)
}

// The tests of a clear and its check, which must give status 0.
fn inspect<D: Disk>(
    d: &D,
    held: Geometry,
    scratch: &mut [u8],
    findings: &mut [Finding],
) -> Result<(), Fault>
    ensures answer { make_says result ≡ clear_answer (D.Disk.medium d.now).sectors (length findings.old) (may_clear (sizes_of held) (length scratch.old) (D.Disk.medium d.now).sectors) }
    ensures scratch { scratch.new ≡ scratch_after (D.Disk.medium d.now).sectors (may_clear (sizes_of held) (length scratch.old) (D.Disk.medium d.now).sectors) scratch.old }
    ensures findings { findings.new ≡ findings_after (D.Disk.medium d.now).sectors (may_clear (sizes_of held) (length scratch.old) (D.Disk.medium d.now).sectors) findings.old }
{
    let volume = may_clear(d, held, scratch.len())?;
    let verdict = run_check(&volume, scratch, findings);
    if !verdict.status.is_clean() {
        return Err(Fault::from(Refusal::NotClear));
    }
    Ok(())
}

impl Found {
    // Makes the volume clear where its check gives status 0; else the volume comes back found, with the refusal. Scratch and findings are as after a check.
    pub fn clear<D: Disk>(
        self,
        d: &D,
        scratch: &mut [u8],
        findings: &mut [Finding],
    ) -> Result<Clear, NotCleared>
        ensures answer { clear_says result ≡ clear_answer (D.Disk.medium d.now).sectors (length findings.old) (may_clear (sizes_of self.sizes) (length scratch.old) (D.Disk.medium d.now).sectors) }
        ensures volume { cleared_sizes result ≡ sizes_of self.sizes }
        ensures scratch { scratch.new ≡ scratch_after (D.Disk.medium d.now).sectors (may_clear (sizes_of self.sizes) (length scratch.old) (D.Disk.medium d.now).sectors) scratch.old }
        ensures findings { findings.new ≡ findings_after (D.Disk.medium d.now).sectors (may_clear (sizes_of self.sizes) (length scratch.old) (D.Disk.medium d.now).sectors) findings.old }
        ensures runs { CarriesOn (clear_call (sizes_of self.sizes) (length scratch.old) (length findings.old)) (D.Disk.medium d.now) (clear_says result) (D.Disk.medium d.now) }
    {
        let Found { sizes } = self;
        match inspect(d, sizes, scratch, findings) {
            Ok(()) => Ok(Clear { sizes }),
            Err(fault) => Err(NotCleared {
                volume: Found { sizes },
                fault,
            }),
        }
    }
}
