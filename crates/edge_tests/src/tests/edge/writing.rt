//! A writer of lines, and the sink that it puts them to, asked one thing after another.

use super::sink;
use io_edge::*;
use net_base::OutOfMemory;
use std::alloc::Global;
use std::process::Abort;
use std::test::Fail;

// What is done with a writer, or is to be seen of it.
#[derive(Clone, Copy)]
pub(super) enum Step<'a> {
    Collects(&'a [u8]),
    // So many empty lines are collected.
    CollectsEmpty(u64),
    Truncates(usize),
    Skips(usize),
    // What is pending is put with this answer, and then the sink holds these bytes.
    Puts(Result<(), Failed>, &'a [u8]),
    // The sink holds these bytes.
    Holds(&'a [u8]),
    // This is the first line that is pending.
    BeginsWith(Option<&'a [u8]>),
    // So many bytes are pending.
    Pends(usize),
    IsFull(bool),
}

fn collects_empty(writer: &mut PieceWriter, count: u64) -> Result<(), OutOfMemory> {
    for _ in 0..count {
        writer.push_line(b"")?;
    }
    Ok(())
}

fn truncates(writer: &mut PieceWriter, count: usize) {
    if count <= writer.len() {
        writer.truncate(count);
    }
}

// Does what is to be done.
fn does(writer: &mut PieceWriter, step: Step<'_>) -> Result<(), OutOfMemory> {
    match step {
        Step::Collects(line) => writer.push_line(line),
        Step::CollectsEmpty(count) => collects_empty(writer, count),
        Step::Truncates(count) => {
            truncates(writer, count);
            Ok(())
        }
        Step::Skips(count) => {
            writer.skip(count);
            Ok(())
        }
        _ => Ok(()),
    }
}

fn begins_with(writer: &PieceWriter, line: Option<&[u8]>) -> bool {
    writer.first_line() == line
}

// Whether what is to be seen is seen.
fn shows(writer: &mut PieceWriter, out: &mut MemSink, step: Step<'_>) -> bool {
    match step {
        Step::Puts(answer, held) => writer.put(out) == answer && out.bytes() == held,
        Step::Holds(held) => out.bytes() == held,
        Step::BeginsWith(line) => begins_with(writer, line),
        Step::Pends(count) => writer.len() == count,
        Step::IsFull(is_full) => writer.is_full() == is_full,
        _ => true,
    }
}

fn take_all(
    rt: &impl Abort,
    writer: &mut PieceWriter,
    out: &mut MemSink,
    steps: &[Step<'_>],
) -> Result<(), Fail> {
    for (n, step) in steps.iter().enumerate() {
        does(writer, *step)?;
        assert!(rt; shows(writer, out, *step), "at step {n}");
    }
    Ok(())
}

// Lines are written into a sink with so much room; the calls of these numbers fail.
pub(super) fn write(
    rt: &impl Abort,
    alloc: Global,
    room: usize,
    failing: &[u64],
    steps: &[Step<'_>],
) -> Result<(), Fail> {
    let mut writer = PieceWriter::new(alloc)?;
    let mut out = sink(alloc, room, failing)?;
    take_all(rt, &mut writer, &mut out, steps)
}
