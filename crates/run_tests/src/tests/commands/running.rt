//! A run of a command over streams in memory, and how it is to end.

use super::USAGE;
use crate::tests::sinks::sink;
use command_run::run;
use io_edge::{MemSink, MemSource};
use net_base::{NumberList, Octets, RefusalKind};
use std::alloc::Global;
use std::process::Abort;
use std::test::Fail;
use tool_status::Status;

// What a run is given.
#[derive(Clone, Copy)]
pub(super) struct Given<'a> {
    pub(super) words: &'a [&'a str],
    pub(super) input: &'a str,
    // How many bytes a reading gives at most, and how many are taken in all.
    pub(super) piece: usize,
    pub(super) room: usize,
    // The numbers of the readings and of the writings that fail.
    pub(super) readings: &'a [u64],
    pub(super) writings: &'a [u64],
}

// Nothing, of which no call fails.
pub(super) const PLAIN: Given<'static> = Given {
    words: &[],
    input: "",
    piece: 64,
    room: 16_384,
    readings: &[],
    writings: &[],
};

// How a run is to end, what it is to write and to tell, and how often it is to read. What is not given may be anything.
#[derive(Clone, Copy)]
pub(super) struct Wanted<'a> {
    pub(super) status: Status,
    pub(super) out: Option<&'a [u8]>,
    pub(super) err: Option<&'a [u8]>,
    pub(super) calls: Option<u64>,
}

// How a run of which no call fails is to end.
#[derive(Clone, Copy)]
pub(super) enum End<'a> {
    // The work is done, with this output.
    Done(&'a str),
    // A line differs, and this is written of it.
    Differs(u64, &'a str),
    // A line is refused, what was written before, and the text.
    Refused(u64, RefusalKind, &'a str, &'a str),
    // The words are no command.
    Usage,
}

pub(super) fn left_at<'a>(end: End<'a>) -> Wanted<'a> {
    let (status, out, err) = match end {
        End::Done(out) => (Status::Done, out, ""),
        End::Differs(line, out) => (Status::Differ { line }, out, ""),
        End::Refused(line, kind, out, err) => (Status::Refused { line, kind }, out, err),
        End::Usage => (Status::Usage, "", USAGE),
    };
    Wanted {
        status,
        out: Some(out.as_bytes()),
        err: Some(err.as_bytes()),
        calls: None,
    }
}

#[derive(Drop)]
struct Streams {
    src: MemSource,
    out: MemSink,
    err: MemSink,
}

fn make_source(alloc: Global, given: Given<'_>) -> Result<MemSource, Fail> {
    let input = Octets::from_slice(alloc, given.input.as_bytes())?;
    let readings = NumberList::from_slice(alloc, given.readings)?;
    Ok(MemSource::new(input, given.piece.max(1), readings))
}

fn make_streams(alloc: Global, given: Given<'_>) -> Result<Streams, Fail> {
    let src = make_source(alloc, given)?;
    let out = sink(alloc, given.room, given.writings)?;
    let err = sink(alloc, 16_384, &[])?;
    Ok(Streams { src, out, err })
}

fn strings(alloc: Global, words: &[&str]) -> Result<Vec<String>, Fail> {
    let mut given = Vec::new(alloc);
    for word in words {
        given.push(String::from_str(alloc, word)?)?;
    }
    Ok(given)
}

fn status_of(alloc: Global, words: &[String], streams: &mut Streams) -> Status {
    let Streams { src, out, err } = streams;
    run(alloc, words, src, out, err)
}

fn is_text(found: &[u8], wanted: Option<&[u8]>) -> bool {
    match wanted {
        Some(text) => found == text,
        None => true,
    }
}

fn has_called(src: &MemSource, wanted: Option<u64>) -> bool {
    match wanted {
        Some(calls) => src.calls() == calls,
        None => true,
    }
}

// A run of these words ends so.
fn expect_end(rt: &impl Abort, streams: &Streams, status: Status, input: &str, wanted: Wanted<'_>) {
    assert!(rt; status == wanted.status, "status on {input:?}");
    assert!(rt;
        is_text(streams.out.bytes(), wanted.out),
        "output on {input:?}"
    );
    assert!(rt;
        is_text(streams.err.bytes(), wanted.err),
        "text on {input:?}"
    );
    assert!(rt;
        has_called(&streams.src, wanted.calls),
        "calls on {input:?}"
    );
}

pub(super) fn expect(
    rt: &impl Abort,
    alloc: Global,
    given: Given<'_>,
    wanted: Wanted<'_>,
) -> Result<(), Fail> {
    let words = strings(alloc, given.words)?;
    let mut streams = make_streams(alloc, given)?;
    let status = status_of(alloc, &words, &mut streams);
    expect_end(rt, &streams, status, given.input, wanted);
    Ok(())
}

// These words on an input, of which each reading gives at most so many bytes. No call fails.
fn plain<'a>(words: &'a [&'a str], input: &'a str, piece: usize) -> Given<'a> {
    Given {
        words,
        input,
        piece,
        ..PLAIN
    }
}

// These words on each input, of which each reading gives at most so many bytes, end so.
pub(super) fn expect_each<'a>(
    rt: &impl Abort,
    alloc: Global,
    words: &'a [&'a str],
    piece: usize,
    rows: &'a [(&'a str, End<'a>)],
) -> Result<(), Fail> {
    for (input, end) in rows {
        expect(rt, alloc, plain(words, *input, piece), left_at(*end))?;
    }
    Ok(())
}

// These words on each input give its output, and on that output the same: its actions are passed over, and come out again.
pub(super) fn expect_again<'a>(
    rt: &impl Abort,
    alloc: Global,
    words: &'a [&'a str],
    piece: usize,
    rows: &'a [(&'a str, &'a str)],
) -> Result<(), Fail> {
    for (input, output) in rows {
        let wanted = left_at(End::Done(*output));
        expect(rt, alloc, plain(words, *input, piece), wanted)?;
        expect(rt, alloc, plain(words, *output, 64), wanted)?;
    }
    Ok(())
}

// Each of these is no command.
pub(super) fn expect_usage<'a>(
    rt: &impl Abort,
    alloc: Global,
    input: &'a str,
    rows: &'a [&'a [&'a str]],
) -> Result<(), Fail> {
    for words in rows {
        expect(rt, alloc, plain(*words, input, 64), left_at(End::Usage))?;
    }
    Ok(())
}

// A run of which the second reading would fail ends so after the first one.
pub(super) fn expect_one_reading<'a>(
    rt: &impl Abort,
    alloc: Global,
    words: &'a [&'a str],
    input: &'a str,
    status: Status,
) -> Result<(), Fail> {
    let given = Given {
        words,
        input,
        readings: &[2],
        ..PLAIN
    };
    let wanted = Wanted {
        status,
        out: None,
        err: None,
        calls: Some(1),
    };
    expect(rt, alloc, given, wanted)
}
