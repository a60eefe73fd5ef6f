// icheck: checks the image on standard input and prints the findings and the verdict.
#![tactic(auto)]

use disk::admit::SECTOR;
use disk::disk::Disk;
use fault::fault::Fault;
use fault::finding::Finding;
use images::plain::Plain;
use std::alloc::{AllocError, Global};
use std::io;
use std::io::Read;
use verdict::verdict::Verdict;
use volume::check::check;
use volume::find::find;

// The longest image that is read.
const MOST_SECTORS: usize = 96;

// The most findings that are printed.
const MOST_FINDINGS: usize = 32;

// The bytes of scratch, one for each block of the largest volume that is read.
const SCRATCH: usize = MOST_SECTORS;

// Finds the volume on a disk and checks it.
fn verdict_on<D: Disk>(d: &D, findings: &mut [Finding]) -> Result<Verdict, Fault> {
    let mut scratch = [0u8; SCRATCH];
    let volume = find(d)?;
    check(&volume, d, &mut scratch, findings)
}

// The verdict, and before it the findings that were kept in the list.
fn print_verdict(rt: &impl Print, v: Verdict, findings: &[Finding]) -> io::Result<()> {
    for finding in findings.iter().take(v.findings as usize) {
        println!(rt; "{finding}")?;
    }
    println!(rt; "status {}", v.status)?;
    println!(rt; "used {}", v.census.used)?;
    println!(rt; "free {}", v.census.free)?;
    println!(rt; "missing {}", v.census.missing)?;
    println!(rt; "findings {}", v.findings)
}

fn report_on(rt: &impl Print, image: &mut [u8]) -> io::Result<()> {
    let mut findings = [Finding::BLANK; MOST_FINDINGS];
    match verdict_on(&Plain::new(image), &mut findings) {
        Ok(v) => print_verdict(rt, v, &findings),
        Err(f) => println!(rt; "refused {}", u8::from(f.refusal)),
    }
}

fn icheck(rt: &(impl Input + Print + AllocGlobal)) -> anyhow::Result<()> {
    let mut image = Vec::new(rt.alloc());
    rt.reader().read_to_end(&mut image)?;
    if image.len() > MOST_SECTORS * SECTOR {
        println!(rt; "too long")?;
    } else {
        report_on(rt, image.as_mut_slice())?;
    }
    Ok(())
}

fn main(rt: HostRuntime) -> anyhow::Result<()> {
    icheck(&rt)
}
