ghost use Rattle.std.specs.Prelude.{◌≤◌};

mod reading;
mod shelves;
mod std_streams;
mod writing;

use self::reading::{Answer, Step, gives, read};
use self::writing::{Step as Writing, write};
use io_edge::*;
use net_base::{NumberList, Octets, OutOfMemory};
use std::alloc::{AllocError, Global};
use std::process::Abort;
use std::test::Fail;

// Three whole lines, of which one is empty, and a rest.
const INPUT: &[u8] = b"first line\n\n> third\nno end";

fn octets(alloc: Global, bytes: &[u8]) -> Result<Octets, OutOfMemory> {
    Octets::from_slice(alloc, bytes)
}

fn numbers(alloc: Global, numbers: &[u64]) -> Result<NumberList, OutOfMemory> {
    NumberList::from_slice(alloc, numbers)
}

// A text in pieces of this size; the calls of these numbers fail.
fn source(
    alloc: Global,
    text: &[u8],
    piece: usize,
    failing: &[u64],
) -> Result<MemSource, OutOfMemory>
    requires { 1 ≤ piece }
{
    let text = octets(alloc, text)?;
    Ok(MemSource::new(text, piece, numbers(alloc, failing)?))
}

fn sink(alloc: Global, room: usize, failing: &[u64]) -> Result<MemSink, OutOfMemory> {
    MemSink::new(alloc, room, numbers(alloc, failing)?)
}

// What a reader gave: each line with a bar behind it, and how often it answered that the source failed.
#[derive(Drop)]
struct Heard {
    lines: Vec<u8>,
    faults: u64,
}

fn add_line(lines: &mut Vec<u8>, line: &[u8]) -> Result<(), AllocError> {
    lines.extend_from_slice(line)?;
    lines.push(b'|')?;
    Ok(())
}

// Hears what comes next, and answers whether the input may go on.
fn hear_next<S: Source>(
    reader: &mut LineReader,
    src: &mut S,
    heard: &mut Heard,
) -> Result<bool, AllocError> {
    match reader.next_line(src) {
        Ok(Got::Line(line)) => add_line(&mut heard.lines, line.as_slice())?,
        Err(LineFault::Failed) => heard.faults = heard.faults.saturating_add(1),
        _ => return Ok(false),
    }
    Ok(true)
}

// Reads lines until the input is over, and asks again after each fault of the source.
fn hear_all<S: Source>(
    reader: &mut LineReader,
    src: &mut S,
    heard: &mut Heard,
) -> Result<(), AllocError> {
    for _ in 0..1000 {
        if !hear_next(reader, src, heard)? {
            break;
        }
    }
    Ok(())
}

fn hear<S: Source>(alloc: Global, src: &mut S) -> Result<Heard, Fail> {
    let mut reader = LineReader::new(alloc)?;
    let mut heard = Heard {
        lines: Vec::new(alloc),
        faults: 0,
    };
    hear_all(&mut reader, src, &mut heard)?;
    Ok(heard)
}

// All lines are heard of a text in pieces of this size, in so many calls; those of these numbers fail.
fn expect_heard(
    rt: &impl Abort,
    alloc: Global,
    piece: usize,
    failing: &[u64],
    calls: u64,
) -> Result<(), Fail>
    requires { 1 ≤ piece }
{
    let mut src = source(alloc, INPUT, piece, failing)?;
    let heard = hear(alloc, &mut src)?;
    assert!(rt; heard.lines.as_slice() == b"first line||> third|".as_slice());
    assert!(rt; heard.faults == failing.len() as u64);
    assert!(rt; src.calls() == calls, "{piece} {failing:?}");
    Ok(())
}

// 26 bytes in pieces, and the call that finds the end.
#[test]
fn the_lines_do_not_depend_on_the_pieces(rt: HostRuntime) -> Result<(), Fail> {
    for (piece, calls) in [(1, 27), (2, 14), (7, 5), (65_536, 2)] {
        assert!(rt; piece >= 1);
        expect_heard(&rt, rt.alloc(), piece, &[], calls)?;
    }
    Ok(())
}

// The same in pieces of 3, where one call fails.
#[test]
fn a_call_that_fails_costs_no_byte(rt: HostRuntime) -> Result<(), Fail> {
    for failing in 1..=10 {
        expect_heard(&rt, rt.alloc(), 3, &[failing], 11)?;
    }
    Ok(())
}

// Three lines come of one call, the next call fails, and then the input is over.
const LINES_OF_ONE_CALL: [Step; 8] = [
    Step::Next(Answer::Line(b"first line")),
    Step::Called(1),
    Step::Next(Answer::Line(b"")),
    Step::Called(1),
    Step::Next(Answer::Line(b"> third")),
    Step::Called(1),
    Step::Next(Answer::Fault(LineFault::Failed)),
    Step::Next(Answer::Over),
];

#[test]
fn no_call_is_made_once_a_line_is_there(rt: HostRuntime) -> Result<(), Fail> {
    read(&rt, rt.alloc(), INPUT, 20, &[2], &LINES_OF_ONE_CALL)
}

// A line of so many bytes, with its line feed and one more line, or without.
fn line_of(alloc: Global, count: usize, ended: bool) -> Result<Octets, AllocError> {
    let mut bytes = vec![in alloc; b'a'; count]?;
    if ended {
        bytes.extend_from_slice(b"\nend\n")?;
    }
    Ok(Octets::from_vec(bytes))
}

// Whether such a line is answered so.
fn is_answered(
    alloc: Global,
    count: usize,
    ended: bool,
    answer: Answer<'_>,
) -> Result<bool, OutOfMemory> {
    let mut src = SureSource::new(line_of(alloc, count, ended)?, 4_096);
    let mut reader = LineReader::new(alloc)?;
    Ok(gives(&mut reader, &mut src, answer))
}

#[test]
fn a_line_has_at_most_140_000_bytes(rt: HostRuntime) -> Result<(), Fail> {
    for (count, ended, answer) in [
        (140_000, true, Answer::LineOf(140_000)),
        (140_001, true, Answer::Fault(LineFault::TooLong)),
        (140_000, false, Answer::Over),
        (140_001, false, Answer::Fault(LineFault::TooLong)),
    ] {
        let holds = is_answered(rt.alloc(), count, ended, answer)?;
        assert!(rt; holds, "{count} bytes, ended: {ended}");
    }
    Ok(())
}

// A line is too long as often as it is asked for, and three calls are made for it.
const TOO_LONG: [Step; 6] = [
    Step::Next(Answer::Fault(LineFault::TooLong)),
    Step::Called(3),
    Step::Next(Answer::Fault(LineFault::TooLong)),
    Step::Called(3),
    Step::Next(Answer::Fault(LineFault::TooLong)),
    Step::Called(3),
];

#[test]
fn a_line_that_is_too_long_stays(rt: HostRuntime) -> Result<(), Fail> {
    let text = line_of(rt.alloc(), 200_000, false)?;
    read(&rt, rt.alloc(), text.as_slice(), 65_536, &[], &TOO_LONG)
}

const KEPT: [Step; 7] = [
    Step::Keeps(None),
    Step::Next(Answer::Line(b"first line")),
    Step::Keeps(Some(b"")),
    Step::Keeps(None),
    Step::Called(1),
    Step::Next(Answer::Line(b"> third")),
    Step::Keeps(None),
];

#[test]
fn a_line_that_is_kept_whole_is_handed_out_without_a_reading(rt: HostRuntime) -> Result<(), Fail> {
    read(&rt, rt.alloc(), INPUT, 18, &[], &KEPT)
}

const KEPT_IN_TURN: [Step; 4] = [
    Step::Next(Answer::Line(b"first")),
    Step::Keeps(Some(b"a longer second")),
    Step::Keeps(Some(b"last")),
    Step::Keeps(None),
];

#[test]
fn lines_that_are_kept_are_put_into_one_buffer(rt: HostRuntime) -> Result<(), Fail> {
    let text = b"first\na longer second\nlast\n";
    read(&rt, rt.alloc(), text, 65_536, &[], &KEPT_IN_TURN)
}

const LENT: [Step; 7] = [
    Step::Lends(None),
    Step::Next(Answer::Line(b"first")),
    Step::Lends(Some(b"a longer second")),
    Step::Keeps(Some(b"third")),
    Step::Lends(Some(b"")),
    Step::Lends(None),
    Step::Called(1),
];

#[test]
fn a_line_that_came_in_one_reading_is_lent(rt: HostRuntime) -> Result<(), Fail> {
    let text = b"first\na longer second\nthird\n\nrest";
    read(&rt, rt.alloc(), text, 65_536, &[], &LENT)
}

const LENT_AFTER_A_FAULT: [Step; 4] = [
    Step::Next(Answer::Fault(LineFault::Failed)),
    Step::Lends(None),
    Step::Next(Answer::Line(b"begun before")),
    Step::Lends(Some(b"after")),
];

#[test]
fn a_line_that_was_begun_before_a_fault_is_not_lent(rt: HostRuntime) -> Result<(), Fail> {
    let text = b"begun before\nafter\n";
    read(&rt, rt.alloc(), text, 10, &[2], &LENT_AFTER_A_FAULT)
}

// Each piece with what is answered to it, and what the sink holds then.
const PIECES: [(&[u8], Result<(), Failed>, &[u8]); 5] = [
    (b"abc", Ok(()), b"abc"),
    (b"", Ok(()), b"abc"),
    (b"def", Ok(()), b"abcdef"),
    (b"gh", Err(Failed), b"abcdef"),
    (b"ghi", Err(Failed), b"abcdefgh"),
];

fn expect_pieces(rt: &impl Abort, out: &mut MemSink) {
    for &(piece, answer, held) in &PIECES {
        assert!(rt; put_all(out, piece) == answer, "{piece:?}");
        assert!(rt; out.bytes() == held, "{piece:?}");
    }
    assert!(rt; out.put(b"") == Ok(0));
}

#[test]
fn a_piece_is_taken_whole_or_up_to_a_fault(rt: HostRuntime) -> Result<(), Fail> {
    let mut out = sink(rt.alloc(), 8, &[3])?;
    expect_pieces(&rt, &mut out);
    Ok(())
}

const ONE_PIECE: [Writing; 5] = [
    Writing::Collects(b"ab"),
    Writing::Collects(b""),
    Writing::Holds(b""),
    Writing::Puts(Ok(()), b"ab\n\n"),
    // nothing is pending, so no call is made
    Writing::Puts(Ok(()), b"ab\n\n"),
];

#[test]
fn lines_are_put_in_one_piece(rt: HostRuntime) -> Result<(), Fail> {
    write(&rt, rt.alloc(), 9, &[2], &ONE_PIECE)
}

// Behind the first piece five of eight bytes find room, then a call fails.
const NO_ROOM: [Writing; 8] = [
    Writing::Collects(b"ab"),
    Writing::Collects(b""),
    Writing::Puts(Ok(()), b"ab\n\n"),
    Writing::Collects(b"cdefgh"),
    Writing::Collects(b"ij"),
    Writing::Truncates(8),
    Writing::Puts(Err(Failed), b"ab\n\ncdefg"),
    Writing::Pends(3),
];

#[test]
fn what_found_no_room_is_still_pending(rt: HostRuntime) -> Result<(), Fail> {
    write(&rt, rt.alloc(), 9, &[3], &NO_ROOM)
}

const FULL_AT_LAST: [Writing; 4] = [
    Writing::CollectsEmpty(65_535),
    Writing::IsFull(false),
    Writing::Collects(b""),
    Writing::IsFull(true),
];

#[test]
fn so_many_bytes_are_a_full_piece(rt: HostRuntime) -> Result<(), Fail> {
    write(&rt, rt.alloc(), 0, &[], &FULL_AT_LAST)
}

const GIVEN_UP: [Writing; 9] = [
    Writing::BeginsWith(None),
    Writing::Collects(b"ab"),
    Writing::Collects(b""),
    Writing::BeginsWith(Some(b"ab")),
    Writing::Skips(3),
    Writing::BeginsWith(Some(b"")),
    Writing::Skips(7),
    Writing::BeginsWith(None),
    Writing::Pends(0),
];

#[test]
fn lines_are_given_up_from_the_front(rt: HostRuntime) -> Result<(), Fail> {
    write(&rt, rt.alloc(), 0, &[], &GIVEN_UP)
}
