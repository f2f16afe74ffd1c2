use super::{expect, is_text, long_line};
use net_base::{Addr, BigTargets, Event, Group, Ip, RootAnswer, Targets};
use std::alloc::Global;
use std::process::Abort;
use trace_text::{Line, LineRefusal, Stage, print_event, read_line};

const LOCAL: Addr = Addr {
    ip: Ip::V4(0x0a00_0001),
    port: 3001,
};

const OTHER: Addr = Addr {
    ip: Ip::V4(0x0a00_0002),
    port: 3002,
};

const LONG: Addr = Addr {
    ip: Ip::V6(0xfd00_0000_0000_0000_0000_0000_0000_0007),
    port: 1,
};

const WORD_1: LineRefusal = LineRefusal::BadWord(1);

const WORD_2: LineRefusal = LineRefusal::BadWord(2);

const WORD_3: LineRefusal = LineRefusal::BadWord(3);

const WORD_4: LineRefusal = LineRefusal::BadWord(4);

const WORD_5: LineRefusal = LineRefusal::BadWord(5);

const WORD_6: LineRefusal = LineRefusal::BadWord(6);

const WORD_8: LineRefusal = LineRefusal::BadWord(8);

const NUMBER_2: LineRefusal = LineRefusal::BadNumber(2);

const NUMBER_3: LineRefusal = LineRefusal::BadNumber(3);

const NUMBER_4: LineRefusal = LineRefusal::BadNumber(4);

const AIMS: Targets = Targets {
    root: 0,
    known: 10_000,
    established: 1000,
    active: 100,
};

const BIG_AIMS: BigTargets = BigTargets {
    known: 3,
    established: 2,
    active: 1,
};

// What an event says.
#[derive(Clone, Copy)]
enum Said<'a> {
    Now(u64),
    Govern(u64),
    Accepted(Addr),
    Dialed(u64, bool),
    Bytes(u64, &'a [u8]),
    Closed(u64),
    Aims(Targets),
    BigAims(BigTargets),
    Locals(&'a [Gathered<'a>]),
    Roots(u64, Found<'a>),
    Bigs(&'a [Addr]),
}

// The valencies of a group, hot and warm, whether it is advertised, and its members.
type Gathered<'a> = (u64, u64, bool, &'a [Addr]);

// For how long an answer of roots serves, and the roots.
type Found<'a> = Option<(u64, &'a [Addr])>;

fn is_group(group: &Group, (hot, warm, advertise, members): Gathered) -> bool {
    group.hot == hot
        && group.warm == warm
        && group.advertise == advertise
        && group.members.as_slice() == members
}

fn are_groups(groups: &[Group], wanted: &[Gathered]) -> bool {
    for (group, gathered) in groups.iter().zip(wanted) {
        if !is_group(group, *gathered) {
            return false;
        }
    }
    groups.len() == wanted.len()
}

fn is_answer(answer: &RootAnswer, found: Found) -> bool {
    match (answer, found) {
        (RootAnswer::Found(time, addresses), Some((wanted, roots))) => {
            *time == wanted && addresses.as_slice() == roots
        }
        (RootAnswer::Failed, None) => true,
        _ => false,
    }
}

fn is_said(event: &Event, said: Said) -> bool {
    match (event, said) {
        (Event::Now(moment), Said::Now(wanted)) => *moment == wanted,
        (Event::Govern(word), Said::Govern(wanted)) => *word == wanted,
        (Event::Accepted(address), Said::Accepted(wanted)) => *address == wanted,
        (Event::Dialed(cid, open), Said::Dialed(id, wanted)) => cid.0 == id && *open == wanted,
        (Event::Bytes(cid, bytes), Said::Bytes(id, wanted)) => {
            cid.0 == id && bytes.as_slice() == wanted
        }
        (Event::Closed(cid), Said::Closed(id)) => cid.0 == id,
        (Event::Aims(targets), Said::Aims(wanted)) => *targets == wanted,
        (Event::BigAims(targets), Said::BigAims(wanted)) => *targets == wanted,
        (Event::Locals(groups), Said::Locals(wanted)) => are_groups(groups.as_slice(), wanted),
        (Event::Roots(job, answer), Said::Roots(id, found)) => {
            job.0 == id && is_answer(answer, found)
        }
        (Event::Bigs(addresses), Said::Bigs(wanted)) => addresses.as_slice() == wanted,
        _ => false,
    }
}

fn read(alloc: Global, version: u64, line: &[u8]) -> Result<Line, LineRefusal> {
    let stage = Stage {
        version,
        seen: 2,
        ..Stage::first()
    };
    read_line(alloc, &stage, line)
}

// Whether this was read, which is printed as that line.
fn is_spelled(alloc: Global, read: Result<Line, LineRefusal>, said: Said, line: &str) -> bool {
    match &read {
        Ok(Line::Happen(event)) => is_said(event, said) && is_text(print_event(alloc, event), line),
        _ => false,
    }
}

// Each line is read as an event, which is printed as that line.
fn expect_spelled(rt: &impl Abort, alloc: Global, rows: &[(&str, Said)]) {
    for (line, said) in rows {
        let read = read(alloc, 2, line.as_bytes());
        expect(rt, is_spelled(alloc, read, *said, *line), *line);
    }
}

// Whether a line was refused so.
fn is_refused(read: Result<Line, LineRefusal>, wanted: LineRefusal) -> bool {
    match &read {
        Ok(_) => false,
        Err(refusal) => *refusal == wanted,
    }
}

fn expect_refused(rt: &impl Abort, alloc: Global, version: u64, rows: &[(&str, LineRefusal)]) {
    for (line, refusal) in rows {
        let read = read(alloc, version, line.as_bytes());
        expect(rt, is_refused(read, *refusal), *line);
    }
}

const NUMBERS: &[(&str, Said)] = &[
    ("now 281474976710656", Said::Now(281_474_976_710_656)),
    ("govern 18446744073709551615", Said::Govern(u64::MAX)),
    ("dialed 7 ok", Said::Dialed(7, true)),
    ("dialed 0 failed", Said::Dialed(0, false)),
    ("closed 12", Said::Closed(12)),
    ("targets 0 10000 1000 100", Said::Aims(AIMS)),
    ("bigtargets 3 2 1", Said::BigAims(BIG_AIMS)),
    ("roots 1 failed", Said::Roots(1, None)),
    ("accepted 10.0.0.2:3002", Said::Accepted(OTHER)),
    ("accepted [fd00:0:0:0:0:0:0:7]:1", Said::Accepted(LONG)),
];

#[test]
fn events_of_numbers(rt: HostRuntime) {
    expect_spelled(&rt, rt.alloc(), NUMBERS);
}

const LISTS: &[(&str, Said)] = &[
    ("bytes 1 00ff09af", Said::Bytes(1, &[0, 255, 9, 0xaf])),
    ("locals", Said::Locals(&[])),
    (
        "locals / 1 2 + 10.0.0.1:3001 [fd00:0:0:0:0:0:0:7]:1 / 0 10000 -",
        Said::Locals(&[(1, 2, true, &[LOCAL, LONG]), (0, 10_000, false, &[])]),
    ),
];

#[test]
fn events_of_lists(rt: HostRuntime) {
    expect_spelled(&rt, rt.alloc(), LISTS);
}

const ADDRESSES: &[(&str, Said)] = &[
    (
        "roots 3 ok 86400000 10.0.0.2:3002",
        Said::Roots(3, Some((86_400_000, &[OTHER]))),
    ),
    ("roots 0 ok 1", Said::Roots(0, Some((1, &[])))),
    ("bigs", Said::Bigs(&[])),
    (
        "bigs 10.0.0.1:3001 10.0.0.1:3001",
        Said::Bigs(&[LOCAL, LOCAL]),
    ),
];

#[test]
fn events_of_addresses(rt: HostRuntime) {
    expect_spelled(&rt, rt.alloc(), ADDRESSES);
}

const REFUSED_EVENTS: &[(&str, LineRefusal)] = &[
    ("govern 18446744073709551616", NUMBER_2),
    ("govern", WORD_2),
    ("govern 0 ", WORD_3),
    ("dialed 1", WORD_3),
    ("dialed 1 Ok", WORD_3),
    ("dialed 281474976710657 ok", NUMBER_2),
    ("dialed 1 ok ok", WORD_4),
    ("bytes 1", WORD_3),
    ("bytes 1 ", WORD_3),
    ("bytes 1 0", WORD_3),
    ("bytes 1 000", WORD_3),
    ("bytes 1 0A", WORD_3),
    ("bytes 1 0g", WORD_3),
    ("bytes x 0g", NUMBER_2),
    ("bytes 1 00 00", WORD_4),
    ("targets", WORD_2),
    ("targets 5 4", WORD_4),
    ("targets 0 1 2", WORD_5),
    ("targets 0 1 2 0 9", LineRefusal::BadTargets),
    ("targets 2 1 1 0", LineRefusal::BadTargets),
    ("targets 0 10001 0 0", LineRefusal::BadTargets),
    ("targets 0 1001 1001 0", LineRefusal::BadTargets),
    ("targets 0 101 101 101", LineRefusal::BadTargets),
    ("targets 0 1 1 1 9", WORD_6),
    ("targets 0 0 281474976710656 0", LineRefusal::BadTargets),
    ("targets 0 0 281474976710657 0", NUMBER_4),
    ("locals ", WORD_2),
    ("locals /", WORD_3),
    ("locals / 1", WORD_4),
    ("locals / / 1", NUMBER_3),
    ("locals / 10001 1 +", NUMBER_3),
    ("locals / 1 10001 +", NUMBER_4),
    ("locals / 1 2 *", WORD_5),
    ("locals / 1 2 + x", WORD_6),
    ("locals 10.0.0.1:1", WORD_2),
    ("locals / 1 2 + 10.0.0.1:1 /", WORD_8),
    ("roots 1", WORD_3),
    ("roots 1 ok", WORD_4),
    ("roots 1 ok 0", NUMBER_4),
    ("roots 1 ok 86400001", NUMBER_4),
    ("roots 1 ok 5 /", WORD_5),
    ("roots 1 ok 5 10.0.0.1:1 x", WORD_6),
    ("roots 1 failed 5", WORD_4),
    ("roots 281474976710657 failed", NUMBER_2),
    ("Govern 1", WORD_1),
    ("", WORD_1),
];

#[test]
fn refused_events(rt: HostRuntime) {
    expect_refused(&rt, rt.alloc(), 2, REFUSED_EVENTS);
    expect_refused(&rt, rt.alloc(), 1, REFUSED_EVENTS);
}

const REFUSED_IN_VERSION_2: &[(&str, LineRefusal)] = &[
    ("bigtargets 1 2 0 9", LineRefusal::BadTargets),
    ("bigtargets 1 1", WORD_4),
    ("bigtargets 1 1 1 1", WORD_5),
    ("bigs /", WORD_2),
    ("bigs ", WORD_2),
    ("bigs [0:0:0:0:0:0:1]:1", WORD_2),
];

const REFUSED_IN_VERSION_1: &[(&str, LineRefusal)] = &[
    ("bigtargets 1 1 0", WORD_1),
    ("bigs", WORD_1),
    ("locals / 1 2 + [fd00:0:0:0:0:0:0:7]:1", WORD_6),
    ("roots 1 ok 5 [fd00:0:0:0:0:0:0:7]:1", WORD_5),
    ("accepted [fd00:0:0:0:0:0:0:7]:1", WORD_2),
];

#[test]
fn events_of_version_2_alone(rt: HostRuntime) {
    expect_refused(&rt, rt.alloc(), 2, REFUSED_IN_VERSION_2);
    expect_refused(&rt, rt.alloc(), 1, REFUSED_IN_VERSION_1);
}

// Whether so many bytes were read of a socket, or the line was refused so.
fn has_bytes(read: Result<Line, LineRefusal>, wanted: Result<usize, LineRefusal>) -> bool {
    match (&read, wanted) {
        (Ok(Line::Happen(Event::Bytes(_, bytes))), Ok(count)) => bytes.as_slice().len() == count,
        (Err(refusal), Err(wanted)) => *refusal == wanted,
        _ => false,
    }
}

// The same, of a line of so many bytes, of which all behind the id are zeros.
fn has_zeros(alloc: Global, length: usize, wanted: Result<usize, LineRefusal>) -> bool {
    match long_line(alloc, length, "bytes 1 ", b'0') {
        Ok(line) => has_bytes(read(alloc, 1, &line), wanted),
        Err(_) => false,
    }
}

#[test]
fn a_read_of_a_socket_has_its_limit(rt: HostRuntime) {
    assert!(rt; has_zeros(rt.alloc(), 131_080, Ok(65_536)));
    assert!(rt; has_zeros(rt.alloc(), 131_082, Err(WORD_3)));
}
