ghost use Rattle.std.specs.Prelude.{◌≡◌, ◌≤◌, [], length, IfOk, OnOk, slice_index_or};
ghost use Rattle.format.specs.Layout.{superblock};
ghost use Rattle.rules.specs.Calls.{same_sizes, may_check, check_answer, scratch_after, findings_after};
ghost use Rattle.rules.specs.Runs.{check as check_call};
ghost use Rattle.rules.specs.Promises.{CarriesOn};
ghost use Rattle.volume.specs.Answers.{looked_up, check_says, sizes_of};

use crate::held::Volume;
use crate::identify::look_up;
use checking::run::run_check;
use disk::disk::Disk;
use fault::fault::Fault;
use fault::finding::Finding;
use fault::refusal::Refusal;
use format::geometry::Geometry;
use format::layout::{BLOCK_BYTES, Block};
use format::on_disk::OnDisk;
use verdict::verdict::Verdict;

// Both sizes are those of the other.
fn same_sizes(a: Geometry, b: Geometry) -> bool
    ensures { result ≡ same_sizes (sizes_of a) (sizes_of b) }
{
    a == b
}

// The tests before a check of the volume held, in their order: 5, 7, 8, 3. The superblock is left in sb.
pub(crate) fn may_check<'d, D: Disk>(
    d: &'d D,
    held: Geometry,
    scratch: usize,
    sb: &mut Block,
) -> Result<OnDisk<'d, D>, Fault>
    ensures answer { looked_up result ≡ may_check (sizes_of held) scratch (D.Disk.medium d.now).sectors }
    ensures room { IfOk result (λ v. (v.sectors ≡ (D.Disk.medium d.now).sectors) × (v.sizes.fsize ≤ scratch) × (sizes_of v.sizes ≡ sizes_of held)) }
    ensures buffer { OnOk result (sb.new ≡ slice_index_or (D.Disk.medium d.now).sectors superblock []) }
{
    let volume = look_up(d, sb)?;
    if !same_sizes(volume.sizes(), held) {
        return Err(Fault::from(Refusal::OtherSizes));
    }
    if scratch < held.fsize() as usize {
        return Err(Fault::from(Refusal::BufferSize));
    }
    Ok(volume)
}

// Checks the volume held: files, free list, missing blocks. Leaves a code for each block in scratch, and the first findings in the list.
pub fn check<D: Disk, V: Volume>(
    held: &V,
    d: &D,
    scratch: &mut [u8],
    findings: &mut [Finding],
) -> Result<Verdict, Fault>
    ensures answer { check_says result ≡ check_answer (D.Disk.medium d.now).sectors (length findings.old) (may_check (V.Volume.sizes held.now) (length scratch.old) (D.Disk.medium d.now).sectors) }
    ensures scratch { scratch.new ≡ scratch_after (D.Disk.medium d.now).sectors (may_check (V.Volume.sizes held.now) (length scratch.old) (D.Disk.medium d.now).sectors) scratch.old }
    ensures findings { findings.new ≡ findings_after (D.Disk.medium d.now).sectors (may_check (V.Volume.sizes held.now) (length scratch.old) (D.Disk.medium d.now).sectors) findings.old }
    ensures runs { CarriesOn (check_call (V.Volume.sizes held.now) (length scratch.old) (length findings.old)) (D.Disk.medium d.now) (check_says result) (D.Disk.medium d.now) }
{
    let mut sb = [0; BLOCK_BYTES];
    let volume = may_check(d, held.geometry(), scratch.len(), &mut sb)?;
    Ok(run_check(&volume, scratch, findings))
}
