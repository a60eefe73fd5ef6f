ghost use Rattle.std.specs.Prelude.{◌≡◌, ◌≤◌, length};
ghost use Rattle.verdict.specs.Verdict.{kept};
ghost use Rattle.checking.specs.FilePhase.{file_scan, file_findings, file_scratch};

use crate::files::FileWalk;
use disk::disk::Disk;
use fault::finding::Finding;
use format::on_disk::OnDisk;
use tally::notes::Notes;

// The file phase, with a code for each block of the volume. It has the form of the whole check: one function for both would take the two walks by a trait with four laws.
fn note_files<D: Disk>(volume: &OnDisk<'_, D>, codes: &mut [u8], findings: &mut [Finding]) -> u32
    requires { length codes.old ≡ volume.now.sizes.fsize }
    ensures count { result ≡ length (file_findings volume.now.sectors volume.now.sizes.isize volume.now.sizes.fsize) }
    ensures codes { codes.new ≡ (file_scan volume.now.sectors volume.now.sizes.isize volume.now.sizes.fsize).codes }
    ensures findings { findings.new ≡ kept findings.old (file_findings volume.now.sectors volume.now.sizes.isize volume.now.sizes.fsize) }
{
    let mut notes = Notes::new(volume, codes, findings);
    let mut walk = FileWalk::new();
    while let Some(met) = walk.next(volume) {
        walk.step(&mut notes, met);
    }
    notes.count
}

// Checks the files of a volume alone, and says how many findings there are.
pub fn file_phase<D: Disk>(
    volume: &OnDisk<'_, D>,
    scratch: &mut [u8],
    findings: &mut [Finding],
) -> u32
    requires { volume.now.sizes.fsize ≤ length scratch.old }
    ensures count { result ≡ length (file_findings volume.now.sectors volume.now.sizes.isize volume.now.sizes.fsize) }
    ensures scratch { scratch.new ≡ file_scratch volume.now.sectors volume.now.sizes.isize volume.now.sizes.fsize scratch.old }
    ensures findings { findings.new ≡ kept findings.old (file_findings volume.now.sectors volume.now.sizes.isize volume.now.sizes.fsize) }
{
    let end = volume.sizes().fsize() as usize;
    note_files(volume, &mut scratch[..end], findings)
}
