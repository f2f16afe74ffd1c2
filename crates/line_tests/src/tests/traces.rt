use super::{expect, is_text, long_line};
use net_base::{
    Action, Addr, Away, Cid, CloseCause, Event, FaultKind, Ip, Job, Octets, OutOfMemory, PeerNote,
    Settings, StateName,
};
use std::alloc::Global;
use std::process::Abort;
use trace_text::*;

// What a line says.
#[derive(Clone, Copy)]
enum Said {
    Trace(u64),
    Own(Addr),
    Set(u8, u64),
    Now(u64),
    Accepted(Addr),
    Closed(u64),
    Acted,
    End,
    Other,
    Refused(LineRefusal),
}

fn is_head(head: HeadLine, said: Said) -> bool {
    match (head, said) {
        (HeadLine::Trace(version), Said::Trace(wanted)) => version == wanted,
        (HeadLine::Own(address), Said::Own(wanted)) => address == wanted,
        (HeadLine::Set(place, value), Said::Set(at, wanted)) => place == at && value == wanted,
        _ => false,
    }
}

fn is_event(event: &Event, said: Said) -> bool {
    match event {
        Event::Now(moment) => matches!(said, Said::Now(wanted) if *moment == wanted),
        Event::Accepted(address) => matches!(said, Said::Accepted(wanted) if *address == wanted),
        Event::Closed(cid) => matches!(said, Said::Closed(id) if cid.0 == id),
        _ => matches!(said, Said::Other),
    }
}

fn is_line(line: &Line, said: Said) -> bool {
    match line {
        Line::Head(head) => is_head(*head, said),
        Line::Happen(event) => is_event(event, said),
        Line::Acted => matches!(said, Said::Acted),
        Line::End => matches!(said, Said::End),
    }
}

// Whether the next line says this. A refused line is passed over.
fn says(alloc: Global, stage: &mut Stage, line: &[u8], said: Said) -> bool {
    match &read_line(alloc, stage, line) {
        Ok(line) => {
            *stage = stage.after(line);
            is_line(line, said)
        }
        Err(refusal) => matches!(said, Said::Refused(wanted) if *refusal == wanted),
    }
}

// What each line says, one after another.
fn expect_said(rt: &impl Abort, alloc: Global, rows: &[(&str, Said)]) {
    let mut stage = Stage::first();
    for (line, said) in rows {
        expect(rt, says(alloc, &mut stage, line.as_bytes(), *said), *line);
    }
}

const WORD_1: Said = Said::Refused(LineRefusal::BadWord(1));

const WORD_2: Said = Said::Refused(LineRefusal::BadWord(2));

const WORD_3: Said = Said::Refused(LineRefusal::BadWord(3));

const WORD_4: Said = Said::Refused(LineRefusal::BadWord(4));

const NUMBER_2: Said = Said::Refused(LineRefusal::BadNumber(2));

const NUMBER_3: Said = Said::Refused(LineRefusal::BadNumber(3));

const LOCAL_1: Addr = Addr {
    ip: Ip::V4(0x7f00_0001),
    port: 3001,
};

const LOCAL_2: Addr = Addr {
    ip: Ip::V4(0x7f00_0001),
    port: 3002,
};

const NOWHERE: Addr = Addr {
    ip: Ip::V4(0),
    port: 0,
};

const OWN: Addr = Addr {
    ip: Ip::V4(0x0a00_0101),
    port: 3001,
};

const WIDE: Addr = Addr {
    ip: Ip::V4(0x0102_03ff),
    port: 65_535,
};

const LINK: Addr = Addr {
    ip: Ip::V6(0xfe80_0000_0000_0000_0000_0000_0000_0001),
    port: 1,
};

const LOOPBACK: Addr = Addr {
    ip: Ip::V6(1),
    port: 3001,
};

const LONG: Addr = Addr {
    ip: Ip::V6(0x0001_0022_0333_4444_000a_00bc_0def_9f0e),
    port: 65_535,
};

const FULL: Addr = Addr {
    ip: Ip::V6(0xfe80_0010_0200_3000_000a_00bc_0def_9f0e),
    port: 1,
};

const ORDER: Said = Said::Refused(LineRefusal::OutOfOrder);

const THE_FIRST_TWO_LINES: &[(&str, Said)] = &[
    ("", WORD_1),
    ("now 5", WORD_1),
    ("own 127.0.0.1:3001", WORD_1),
    ("> admit", WORD_1),
    ("trace", WORD_2),
    ("trace 3", WORD_2),
    ("trace 01", WORD_2),
    ("trace 1 ", WORD_3),
    ("trace 1", Said::Trace(1)),
    ("trace 1", WORD_1),
    ("set magic 42", WORD_1),
    ("> admit", WORD_1),
    ("own", WORD_2),
    ("own x", WORD_2),
    ("own [0:0:0:0:0:0:0:1]:3001", WORD_2),
    ("own 127.0.0.1:3001 1", WORD_3),
    ("own 127.0.0.1:3001", Said::Own(LOCAL_1)),
    ("own 127.0.0.1:3001", WORD_1),
    ("trace 1", WORD_1),
];

#[test]
fn the_first_two_lines(rt: HostRuntime) {
    expect_said(&rt, rt.alloc(), THE_FIRST_TWO_LINES);
}

const LINES_BEHIND_THE_HEAD: &[(&str, Said)] = &[
    ("trace 1", Said::Trace(1)),
    ("own 0.0.0.0:0", Said::Own(NOWHERE)),
    ("now 0", Said::Now(0)),
    ("now 281474976710656", Said::Now(281_474_976_710_656)),
    ("now 281474976710657", NUMBER_2),
    ("now 01", NUMBER_2),
    ("now -1", NUMBER_2),
    ("now", WORD_2),
    ("now ", NUMBER_2),
    ("now  5", NUMBER_2),
    (" now 5", WORD_1),
    ("now 5 6", WORD_3),
    ("now\t5", WORD_1),
    ("now 5\r", NUMBER_2),
    ("closed 1", Said::Closed(1)),
    ("closed x 1", NUMBER_2),
    ("closed 281474976710657", NUMBER_2),
    ("> ", Said::Acted),
    ("> any  thing", Said::Acted),
    (">", WORD_1),
    (">x", WORD_1),
    ("end", Said::End),
    ("end ", WORD_2),
    ("end\r", WORD_1),
    ("", WORD_1),
];

#[test]
fn lines_behind_the_head(rt: HostRuntime) {
    expect_said(&rt, rt.alloc(), LINES_BEHIND_THE_HEAD);
}

const EVENTS_OF_VERSION_1: &[(&str, Said)] = &[
    ("trace 1", Said::Trace(1)),
    ("own 0.0.0.0:0", Said::Own(NOWHERE)),
    ("govern 7", Said::Other),
    ("dialed 1 ok", Said::Other),
    ("bytes 1 00", Said::Other),
    ("targets 0 0 0 0", Said::Other),
    ("locals", Said::Other),
    ("roots 1 failed", Said::Other),
    ("bigtargets 1 1 0", WORD_1),
    ("bigs", WORD_1),
];

const EVENTS_OF_VERSION_2: &[(&str, Said)] = &[
    ("trace 2", Said::Trace(2)),
    ("own 0.0.0.0:0", Said::Own(NOWHERE)),
    ("bigtargets 1 2 0", Said::Refused(LineRefusal::BadTargets)),
    ("bigtargets 1 1 0", Said::Other),
    ("bigs", Said::Other),
];

#[test]
fn every_event_is_read(rt: HostRuntime) {
    expect_said(&rt, rt.alloc(), EVENTS_OF_VERSION_1);
    expect_said(&rt, rt.alloc(), EVENTS_OF_VERSION_2);
}

const ADDRESSES_OF_VERSION_1: &[(&str, Said)] = &[
    ("trace 1", Said::Trace(1)),
    ("own 10.0.1.1:3001", Said::Own(OWN)),
    ("accepted 1.2.3.255:65535", Said::Accepted(WIDE)),
    ("accepted", WORD_2),
    ("accepted  127.0.0.1:3002", WORD_2),
    ("accepted 127.0.0.1:3002 x", WORD_3),
    ("accepted 127.0.0.01:3002", WORD_2),
    ("accepted 127.0.0.256:3002", WORD_2),
    ("accepted 127.0.1:3002", WORD_2),
    ("accepted 127.0.0.0.1:3002", WORD_2),
    ("accepted 127.0.0.1", WORD_2),
    ("accepted 127.0.0.1:", WORD_2),
    ("accepted 127.0.0.1:03002", WORD_2),
    ("accepted 127.0.0.1:65536", WORD_2),
    ("accepted 127.0.0.1:1:1", WORD_2),
    ("accepted :1", WORD_2),
    ("accepted [0:0:0:0:0:0:0:1]:3001", WORD_2),
];

#[test]
fn addresses_of_version_1(rt: HostRuntime) {
    expect_said(&rt, rt.alloc(), ADDRESSES_OF_VERSION_1);
}

const ADDRESSES_OF_VERSION_2: &[(&str, Said)] = &[
    ("trace 2", Said::Trace(2)),
    ("own [fe80:0:0:0:0:0:0:1]:1", Said::Own(LINK)),
    ("accepted 127.0.0.1:3002", Said::Accepted(LOCAL_2)),
    ("accepted [0:0:0:0:0:0:0:1]:3001", Said::Accepted(LOOPBACK)),
    (
        "accepted [1:22:333:4444:a:bc:def:9f0e]:65535",
        Said::Accepted(LONG),
    ),
    ("accepted [0:0:0:0:0:0:0:01]:3001", WORD_2),
    ("accepted [0:0:0:0:0:0:0:10000]:3001", WORD_2),
    ("accepted [FE80:0:0:0:0:0:0:1]:3001", WORD_2),
    ("accepted [0:0:0:0:0:0:1]:3001", WORD_2),
    ("accepted [0:0:0:0:0:0:0:0:1]:3001", WORD_2),
    ("accepted [0:0:0:0:0:0:0:]:3001", WORD_2),
    ("accepted [::1]:3001", WORD_2),
    ("accepted [0:0:0:0:0:0:0:1]3001", WORD_2),
    ("accepted [0:0:0:0:0:0:0:1]:", WORD_2),
    ("accepted [0:0:0:0:0:0:0:1:3001", WORD_2),
    ("accepted 0:0:0:0:0:0:0:1:3001", WORD_2),
    ("accepted [127.0.0.1]:3001", WORD_2),
];

#[test]
fn addresses_of_version_2(rt: HostRuntime) {
    expect_said(&rt, rt.alloc(), ADDRESSES_OF_VERSION_2);
}

const SETTINGS_IN_THEIR_ORDER: &[(&str, Said)] = &[
    ("trace 1", Said::Trace(1)),
    ("own 0.0.0.0:0", Said::Own(NOWHERE)),
    ("set", WORD_2),
    ("set version 1", WORD_2),
    ("set magic", WORD_3),
    ("set magic 42 1", WORD_4),
    ("set magic 4294967296", NUMBER_3),
    ("set magic 4294967295", Said::Set(1, 4_294_967_295)),
    ("set magic", ORDER),
    ("set initiatoronly 2", NUMBER_3),
    ("set initiatoronly 0", Said::Set(2, 0)),
    ("> anything", Said::Acted),
    ("set sharing 1", Said::Set(3, 1)),
    ("set hard 10001", NUMBER_3),
    ("set hard 0", NUMBER_3),
    ("set soft 513", NUMBER_3),
    ("set hard 2", Said::Set(4, 2)),
    ("set soft 3", NUMBER_3),
    ("set soft 2", Said::Set(5, 2)),
    ("set delay 0", NUMBER_3),
    ("set delay 86400001", NUMBER_3),
    ("set delay 86400000", Said::Set(6, 86_400_000)),
    ("set idle 1", Said::Set(7, 1)),
    ("set hard x", ORDER),
    ("set timewait 60000", Said::Set(8, 60_000)),
    ("set handshake 10000", Said::Set(9, 10_000)),
    ("set reply 10000", Said::Set(10, 10_000)),
    ("set backoff 5000", Said::Set(11, 5000)),
    ("set sharegap 900000", Said::Set(12, 900_000)),
    ("set shares 9", NUMBER_3),
    ("set shares 8", Said::Set(13, 8)),
    ("now 0", Said::Now(0)),
    ("set", ORDER),
    ("set x", ORDER),
];

#[test]
fn settings_in_their_order(rt: HostRuntime) {
    expect_said(&rt, rt.alloc(), SETTINGS_IN_THEIR_ORDER);
}

// Whether a long line behind the first two says this, which begins with a text and goes on with one byte.
fn says_at_length(alloc: Global, front: &str, byte: u8, said: Said) -> bool {
    let mut stage = Stage {
        version: 2,
        seen: 2,
        ..Stage::first()
    };
    match long_line(alloc, 139_000, front, byte) {
        Ok(line) => says(alloc, &mut stage, &line, said),
        Err(_) => false,
    }
}

const LONG_LINES: &[(&str, u8, Said)] = &[
    ("", 0xff, WORD_1),
    ("", b' ', WORD_1),
    ("> ", 0xff, Said::Acted),
    ("now ", b'9', NUMBER_2),
    ("now 5 ", b' ', WORD_3),
    ("accepted [", b':', WORD_2),
    ("accepted 1", b'.', WORD_2),
];

#[test]
fn any_bytes_are_a_line(rt: HostRuntime) {
    for (front, byte, said) in LONG_LINES {
        let holds = says_at_length(rt.alloc(), *front, *byte, *said);
        expect(&rt, holds, *front);
    }
}

// Whether a line is read as one of an action.
fn is_acted(alloc: Global, line: &str) -> bool {
    let mut stage = Stage::first();
    says(alloc, &mut stage, b"trace 1", Said::Trace(1))
        && says(alloc, &mut stage, b"own 0.0.0.0:0", Said::Own(NOWHERE))
        && says(alloc, &mut stage, line.as_bytes(), Said::Acted)
}

// An action is printed so, and what is printed is read as an action line.
fn is_printed(alloc: Global, action: &Action, line: &str) -> bool {
    is_text(print_action(alloc, action), line) && is_acted(alloc, line)
}

fn expect_printed(rt: &impl Abort, alloc: Global, rows: &[(Action, &str)]) {
    for (action, line) in rows {
        expect(rt, is_printed(alloc, action, *line), *line);
    }
}

#[test]
fn actions_of_connections_are_printed(rt: HostRuntime) {
    let rows = [
        (Action::Admit(Cid(1), LOCAL_2), "> admit 1 127.0.0.1:3002"),
        (Action::Turnaway(Away::Full), "> turnaway full"),
        (Action::Turnaway(Away::OwnAddr), "> turnaway self"),
        (
            Action::Dial(Cid(18_446_744_073_709_551_615), LOCAL_2),
            "> dial 18446744073709551615 127.0.0.1:3002",
        ),
        (
            Action::Dial(Cid(3), FULL),
            "> dial 3 [fe80:10:200:3000:a:bc:def:9f0e]:1",
        ),
        (
            Action::Close(Cid(2), CloseCause::Overwritten),
            "> close 2 overwritten",
        ),
        (
            Action::Close(Cid(2), CloseCause::Fault(FaultKind::HandshakeWait)),
            "> close 2 fault handshakewait",
        ),
    ];
    expect_printed(&rt, rt.alloc(), &rows);
}

#[test]
fn other_actions_are_printed(rt: HostRuntime) {
    let rows = [
        (Action::Pause(5000), "> pause 5000"),
        (Action::AskRoots(Job(1)), "> askroots 1"),
        (
            Action::State(Cid(1), StateName::UnnegotiatedInbound),
            "> state 1 UnnegotiatedInbound",
        ),
        (
            Action::Peer(LOCAL_2, PeerNote::Forgotten),
            "> peer 127.0.0.1:3002 forgotten",
        ),
        (
            Action::Peer(LOOPBACK, PeerNote::Known),
            "> peer [0:0:0:0:0:0:0:1]:3001 known",
        ),
    ];
    expect_printed(&rt, rt.alloc(), &rows);
}

fn is_sent(alloc: Global, bytes: &[u8], line: &str) -> bool {
    match Octets::from_slice(alloc, bytes) {
        Ok(octets) => is_printed(alloc, &Action::Send(Cid(1), octets), line),
        Err(OutOfMemory) => false,
    }
}

#[test]
fn bytes_are_printed(rt: HostRuntime) {
    let bytes = [0, 0, 0, 0, 0, 8, 0, 3, 0x82, 0, 1, 0xab, 0xff];
    assert!(rt; is_sent(rt.alloc(), &bytes, "> send 1 0000000000080003820001abff"));
}

const HEAD: &str = "trace 2
own [0:0:0:0:0:0:0:1]:3001
set magic 4294967295
set initiatoronly 0
set sharing 1
set hard 512
set soft 384
set delay 5000
set idle 5000
set timewait 60000
set handshake 10000
set reply 10000
set backoff 5000
set sharegap 900000
set shares 2
";

#[test]
fn a_head_is_printed(rt: HostRuntime) {
    let settings = Settings {
        magic: 4_294_967_295,
        ..Settings::usual(LOOPBACK)
    };
    assert!(rt; is_text(print_head(rt.alloc(), &settings), HEAD));
}
