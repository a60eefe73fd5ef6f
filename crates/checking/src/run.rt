ghost use Rattle.std.specs.Prelude.{◌≡◌, ◌≤◌, length};
ghost use Rattle.verdict.specs.Verdict.{codes_of, findings_of, verdict_of, kept, scratch_of};

use crate::walk::Walk;
use disk::disk::Disk;
use fault::finding::Finding;
use format::on_disk::OnDisk;
use tally::notes::Notes;
use verdict::verdict::Verdict;

// The check, with a code for each block of the volume.
fn note_all<D: Disk>(volume: &OnDisk<'_, D>, codes: &mut [u8], findings: &mut [Finding]) -> Verdict
    requires { length codes.old ≡ volume.now.sizes.fsize }
    ensures answer { result ≡ verdict_of volume.now.sectors volume.now.sizes.isize volume.now.sizes.fsize (length findings.old) }
    ensures codes { codes.new ≡ codes_of volume.now.sectors volume.now.sizes.isize volume.now.sizes.fsize }
    ensures findings { findings.new ≡ kept findings.old (findings_of volume.now.sectors volume.now.sizes.isize volume.now.sizes.fsize) }
{
    let mut notes = Notes::new(volume, codes, findings);
    let mut walk = Walk::new();
    while let Some(met) = walk.next(volume) {
        walk.step(&mut notes, met);
    }
    notes.judge(walk.census)
}

// Checks a volume: scratch gets the code of each block, and the list the first findings that it has room for.
pub fn run_check<D: Disk>(
    volume: &OnDisk<'_, D>,
    scratch: &mut [u8],
    findings: &mut [Finding],
) -> Verdict
    requires { volume.now.sizes.fsize ≤ length scratch.old }
    ensures answer { result ≡ verdict_of volume.now.sectors volume.now.sizes.isize volume.now.sizes.fsize (length findings.old) }
    ensures scratch { scratch.new ≡ scratch_of volume.now.sectors volume.now.sizes.isize volume.now.sizes.fsize scratch.old }
    ensures findings { findings.new ≡ kept findings.old (findings_of volume.now.sectors volume.now.sizes.isize volume.now.sizes.fsize) }
{
    let end = volume.sizes().fsize() as usize;
    note_all(volume, &mut scratch[..end], findings)
}
