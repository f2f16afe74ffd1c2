//! A reader of lines, asked one thing after another.
ghost use Rattle.std.specs.Prelude.{◌≤◌};

use super::source;
use io_edge::*;
use net_base::OutOfMemory;
use std::alloc::Global;
use std::process::Abort;
use std::test::Fail;

// What comes next of an input.
#[derive(Clone, Copy)]
pub(super) enum Answer<'a> {
    Line(&'a [u8]),
    // A line of so many bytes.
    LineOf(usize),
    Over,
    Fault(LineFault),
}

// What a reader is asked, and what is to be seen then.
#[derive(Clone, Copy)]
pub(super) enum Step<'a> {
    Next(Answer<'a>),
    // This line is kept whole, or none.
    Keeps(Option<&'a [u8]>),
    // This line is lent, and is then given up, or none is.
    Lends(Option<&'a [u8]>),
    // The source was called so often.
    Called(u64),
}

fn is_answer(found: &Result<Got, LineFault>, answer: Answer<'_>) -> bool {
    match (found, answer) {
        (Ok(Got::Line(line)), Answer::Line(bytes)) => line.as_slice() == bytes,
        (Ok(Got::Line(line)), Answer::LineOf(count)) => line.as_slice().len() == count,
        (Ok(Got::Over), Answer::Over) => true,
        (Err(fault), Answer::Fault(wanted)) => *fault == wanted,
        _ => false,
    }
}

// Whether this comes next.
pub(super) fn gives<S: Source>(reader: &mut LineReader, src: &mut S, answer: Answer<'_>) -> bool {
    let found = reader.next_line(src);
    is_answer(&found, answer)
}

fn takes_kept(reader: &mut LineReader, kept: &mut Vec<u8>) -> Result<bool, OutOfMemory> {
    reader.kept_line(kept)
}

// Whether this line is kept whole, which then takes the place of what the buffer held.
fn keeps(
    reader: &mut LineReader,
    kept: &mut Vec<u8>,
    wanted: Option<&[u8]>,
) -> Result<bool, OutOfMemory> {
    let is_kept = takes_kept(reader, kept)?;
    Ok(match wanted {
        Some(line) => is_kept && kept.as_slice() == line,
        None => !is_kept,
    })
}

// Whether this line is lent, which is then given up.
fn lends(reader: &mut LineReader, wanted: Option<&[u8]>) -> bool {
    match reader.whole_line() {
        Some(line) => {
            let is_wanted = is_line(line, wanted);
            let count = line.len();
            reader.skip(count + 1);
            is_wanted
        }
        None => wanted.is_none(),
    }
}

fn is_line(line: &[u8], wanted: Option<&[u8]>) -> bool {
    match wanted {
        Some(bytes) => line == bytes,
        None => false,
    }
}

// Whether what a step asks for is seen.
fn holds(
    reader: &mut LineReader,
    src: &mut MemSource,
    kept: &mut Vec<u8>,
    step: Step<'_>,
) -> Result<bool, OutOfMemory> {
    match step {
        Step::Next(answer) => Ok(gives(reader, src, answer)),
        Step::Keeps(wanted) => keeps(reader, kept, wanted),
        Step::Lends(wanted) => Ok(lends(reader, wanted)),
        Step::Called(count) => Ok(src.calls() == count),
    }
}

fn take_all(
    rt: &impl Abort,
    reader: &mut LineReader,
    src: &mut MemSource,
    kept: &mut Vec<u8>,
    steps: &[Step<'_>],
) -> Result<(), Fail> {
    for (n, step) in steps.iter().enumerate() {
        assert!(rt; holds(reader, src, kept, *step)?, "at step {n}");
    }
    Ok(())
}

// A text in pieces of this size is read; the calls of these numbers fail.
pub(super) fn read(
    rt: &impl Abort,
    alloc: Global,
    text: &[u8],
    piece: usize,
    failing: &[u64],
    steps: &[Step<'_>],
) -> Result<(), Fail>
    requires { 1 ≤ piece }
{
    let mut src = source(alloc, text, piece, failing)?;
    let mut reader = LineReader::new(alloc)?;
    let mut kept = b"older".to_vec(alloc)?;
    take_all(rt, &mut reader, &mut src, &mut kept, steps)
}
