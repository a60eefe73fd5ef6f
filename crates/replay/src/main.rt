// replay: runs a script of calls on one disk and prints each answer.
#![tactic(auto)]

mod answer;
mod buffers;
mod findings;
mod held;
mod session;

use answer::{Answer, Failure};
use buffers::Buffers;
use disk::admit::SECTOR;
use images::image::Image;
use images::order::ByteOrder;
use images::plain::Plain;
use images::swapped::Swapped;
use script::command::{Command, LineError, Order};
use script::token::Word;
use session::Session;
use std::alloc::{AllocError, Global};
use std::io::Read;

// A line of a script, or none where it is bad.
type Line = Option<Command>;

// The lines of a script; those that are empty and those that begin with a number sign are left out.
fn script_of(heap: Global, input: &[u8]) -> Result<Vec<Line>, AllocError> {
    let mut script = Vec::new(heap);
    for line in input.split(|b| *b == b'\n') {
        if matches!(line, [] | [b'#', ..]) {
            continue;
        }
        match Command::parse(heap, line) {
            Ok(command) => script.push(Some(command))?,
            Err(LineError::Bad) => script.push(None)?,
            Err(LineError::Memory(e)) => return Err(e),
        }
    }
    Ok(script)
}

// The lines of an answer, which begin with the first word of the script's line.
fn report(rt: &impl Print, word: Word, answer: Result<Answer, Failure>) -> anyhow::Result<()> {
    match answer {
        Ok(answer) => println!(rt; "{word}: {answer}")?,
        Err(Failure::Memory(e)) => return Err(e.into()),
        Err(failure) => println!(rt; "{word}: {failure}")?,
    }
    Ok(())
}

// Runs the lines up to the one that makes the next disk.
fn run<O: ByteOrder + Drop>(
    rt: &(impl Print + AllocGlobal),
    image: Image<'_, O>,
    lines: &[Line],
    lent: &mut Buffers,
) -> anyhow::Result<()> {
    let mut session = Session::new(rt.alloc(), image, lent);
    for line in lines {
        match line {
            Some(Command::NewDisk { .. }) => return Ok(()),
            Some(Command::Run(call)) => report(rt, call.word(), session.run(*call))?,
            Some(Command::Do(chore)) => report(rt, chore.word(), session.serve(chore))?,
            None => println!(rt; "bad line")?,
        }
    }
    Ok(())
}

// Runs the lines for one disk of zeros. The order is a value here and a type below, so each has its arm.
fn run_on_new_disk(
    rt: &(impl Print + AllocGlobal),
    order: Order,
    sectors: u32,
    lines: &[Line],
    lent: &mut Buffers,
) -> anyhow::Result<()> {
    let mut bytes = vec![in rt.alloc(); 0u8; sectors as usize * SECTOR]?;
    match order {
        Order::Plain => run(rt, Plain::new(bytes.as_mut_slice()), lines, lent),
        Order::Swapped => run(rt, Swapped::new(bytes.as_mut_slice()), lines, lent),
    }
}

fn replay(rt: &(impl Input + Print + AllocGlobal)) -> anyhow::Result<()> {
    let heap = rt.alloc();
    let mut input = Vec::new(heap);
    rt.reader().read_to_end(&mut input)?;
    let script = script_of(heap, input.as_slice())?;
    let mut lent = Buffers::new(heap)?;
    for part in script
        .as_slice()
        .chunk_by(|_, next| !matches!(next, Some(Command::NewDisk { .. })))
    {
        match part {
            [Some(Command::NewDisk { order, sectors }), lines @ ..] => {
                report(rt, Word::Disk, Ok(Answer::Done))?;
                run_on_new_disk(rt, *order, *sectors, lines, &mut lent)?;
            }
            lines => run_on_new_disk(rt, Order::Plain, 0, lines, &mut lent)?,
        }
    }
    Ok(())
}

fn main(rt: HostRuntime) -> anyhow::Result<()> {
    replay(&rt)
}
