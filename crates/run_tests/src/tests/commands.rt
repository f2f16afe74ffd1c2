mod checking;
mod clients;
mod drilling;
mod rows;
mod running;
mod streams;

use self::rows::ROWS;
use self::running::{
    End, Given, PLAIN, Wanted, expect, expect_again, expect_each, expect_one_reading, expect_usage,
};
use net_base::RefusalKind;
use std::alloc::Global;
use std::process::Abort;
use std::test::Fail;
use tool_status::Status;

const REPLAY: [&str; 1] = ["replay"];

const USAGE: &str =
    "usage: replay | check | pair | clients MAGIC LIMIT WAIT | drill SEED COUNT | node CONF TOPO COUNT\n";

// Peers that connect up to the hard limit, one that hangs up, and a handshake that never comes.
const LIMITS: &str = "trace 1
own 127.0.0.1:3001
set hard 2
set soft 1
accepted 127.0.0.1:3002
accepted 127.0.0.1:3003
accepted 127.0.0.1:3004
closed 1
now 10000
end
";

const LIMITS_REPLAYED: &str = "trace 1
own 127.0.0.1:3001
set hard 2
set soft 1
accepted 127.0.0.1:3002
> admit 1 127.0.0.1:3002
> state 1 UnnegotiatedInbound
accepted 127.0.0.1:3003
> admit 2 127.0.0.1:3003
> state 2 UnnegotiatedInbound
> pause 5000
accepted 127.0.0.1:3004
> turnaway full
closed 1
> state 1 Terminated
now 10000
> close 2 fault handshakewait
> state 2 Terminated
end
";

const HEAD: &str = "trace 1\nown 127.0.0.1:3001\n";

const REPLAYED: [(&str, End); 5] = [
    (
        "trace 1\nown 127.0.0.1:3001\nend\n",
        End::Done("trace 1\nown 127.0.0.1:3001\nend\n"),
    ),
    (LIMITS, End::Done(LIMITS_REPLAYED)),
    (
        "trace 1\nown 127.0.0.1:3001\naccepted 127.0.0.1:3001\nend\n",
        End::Done("trace 1\nown 127.0.0.1:3001\naccepted 127.0.0.1:3001\n> turnaway self\nend\n"),
    ),
    (
        "trace 1\nown 127.0.0.1:3001\naccepted 127.0.0.1:3002\naccepted 127.0.0.1:3002\nend\n",
        End::Done(
            "trace 1\nown 127.0.0.1:3001\naccepted 127.0.0.1:3002\n> admit 1 127.0.0.1:3002\n> state 1 UnnegotiatedInbound\naccepted 127.0.0.1:3002\n> turnaway present\nend\n",
        ),
    ),
    (
        "trace 1\nown 127.0.0.1:3001\naccepted 127.0.0.1:3002\nnow 10000\nend\n",
        End::Done(
            "trace 1\nown 127.0.0.1:3001\naccepted 127.0.0.1:3002\n> admit 1 127.0.0.1:3002\n> state 1 UnnegotiatedInbound\nnow 10000\n> close 1 fault handshakewait\n> state 1 Terminated\nend\n",
        ),
    ),
];

#[test]
fn traces_are_replayed(rt: HostRuntime) -> Result<(), Fail> {
    for piece in [1, 7, 65_536] {
        expect_each(&rt, rt.alloc(), &REPLAY, piece, &REPLAYED)?;
    }
    Ok(())
}

#[test]
fn the_whole_machine_is_replayed(rt: HostRuntime) -> Result<(), Fail> {
    expect_again(&rt, rt.alloc(), &REPLAY, 64, &ROWS)
}

const REFUSED: [(&str, End); 10] = [
    (
        "",
        End::Refused(1, RefusalKind::NoEnd, "", "line 1 refused: no end\n"),
    ),
    (
        "trace 1\nown 127.0.0.1:3001\nnow 01\nend\n",
        End::Refused(
            3,
            RefusalKind::Number(2),
            HEAD,
            "line 3 refused: number 2\n",
        ),
    ),
    (
        "trace 1\nown 127.0.0.1:3001\nnow\nend\n",
        End::Refused(3, RefusalKind::Word(2), HEAD, "line 3 refused: word 2\n"),
    ),
    (
        "trace 1\nown 127.0.0.1:3001\nset soft 600\nend\n",
        End::Refused(
            3,
            RefusalKind::Number(3),
            HEAD,
            "line 3 refused: number 3\n",
        ),
    ),
    (
        "trace 1\nown 127.0.0.1:3001\nset idle 1\nset hard 2\nend\n",
        End::Refused(
            4,
            RefusalKind::Order,
            "trace 1\nown 127.0.0.1:3001\nset idle 1\n",
            "line 4 refused: order\n",
        ),
    ),
    (
        "trace 1\nown 127.0.0.1:3001\ngovern x y\nend\n",
        End::Refused(
            3,
            RefusalKind::Number(2),
            HEAD,
            "line 3 refused: number 2\n",
        ),
    ),
    (
        "trace 1\nown 127.0.0.1:3001\ntargets 0 1 2 0\nend\n",
        End::Refused(3, RefusalKind::Targets, HEAD, "line 3 refused: targets\n"),
    ),
    (
        "trace 2\nown 127.0.0.1:3001\naccepted [0:0:0:0:0:0:0:01]:3001\nend\n",
        End::Refused(
            3,
            RefusalKind::Word(2),
            "trace 2\nown 127.0.0.1:3001\n",
            "line 3 refused: word 2\n",
        ),
    ),
    (
        "trace 1\nown 127.0.0.1:3001\naccepted [0:0:0:0:0:0:0:1]:3001\nend\n",
        End::Refused(3, RefusalKind::Word(2), HEAD, "line 3 refused: word 2\n"),
    ),
    (
        "trace 1\nown 127.0.0.1:3001\nbigtargets 1 1 0\nend\n",
        End::Refused(3, RefusalKind::Word(1), HEAD, "line 3 refused: word 1\n"),
    ),
];

#[test]
fn lines_are_refused(rt: HostRuntime) -> Result<(), Fail> {
    expect_each(&rt, rt.alloc(), &REPLAY, 64, &REFUSED)
}

const NO_COMMANDS: [&[&str]; 13] = [
    &[],
    &["check", "x"],
    &["replay", "x"],
    &["--help"],
    &["clients", "42", "1"],
    &["clients", "4294967296", "1", "1"],
    &["clients", "42", "0", "10000"],
    &["clients", "42", "10001", "10000"],
    &["clients", "42", "1", "0"],
    &["clients", "42", "1", "86400001"],
    &["clients", "42", "01", "1"],
    &["replay", "42", "1", "1"],
    &["clients", "42", "1", "1", "1"],
];

#[test]
fn other_words_are_no_command(rt: HostRuntime) -> Result<(), Fail> {
    assert!(rt; Status::Usage.code() == 2);
    expect_usage(&rt, rt.alloc(), LIMITS, &NO_COMMANDS)
}

// The life of a connection is read in four pieces, and what is written of it is put before each of the last three and at
// the end. Before each of these calls: how many bytes of its output are of the lines that stand whole in what was read.
const CALLS: [(u64, usize); 4] = [(1, 0), (2, 85), (3, 379), (4, 583)];

// A run on the life of a connection, with the calls that fail, ends so, with that many bytes of its output.
fn expect_life<'a>(
    rt: &impl Abort,
    alloc: Global,
    readings: &'a [u64],
    writings: &'a [u64],
    end: (Status, &'a str),
    written: usize,
    calls: Option<u64>,
) -> Result<(), Fail> {
    let (input, output) = ROWS[1];
    let out = output.as_bytes().get(..written);
    assert!(rt; out.is_some());
    let given = Given {
        words: &REPLAY,
        input,
        readings,
        writings,
        room: 4096,
        ..PLAIN
    };
    let (status, text) = end;
    let wanted = Wanted {
        status,
        out,
        err: Some(text.as_bytes()),
        calls,
    };
    expect(rt, alloc, given, wanted)
}

#[test]
fn each_reading_fails_in_turn(rt: HostRuntime) -> Result<(), Fail> {
    let fault = (Status::ReadFault, "read fault\n");
    for &(call, written) in &CALLS {
        expect_life(&rt, rt.alloc(), &[call], &[], fault, written, Some(call))?;
    }
    let (_, output) = ROWS[1];
    let done = (Status::Done, "");
    expect_life(&rt, rt.alloc(), &[5], &[], done, output.len(), Some(4))
}

#[test]
fn each_writing_fails_in_turn(rt: HostRuntime) -> Result<(), Fail> {
    let fault = (Status::WriteFault, "write fault\n");
    for &(call, written) in &CALLS {
        expect_life(&rt, rt.alloc(), &[], &[call], fault, written, Some(call))?;
    }
    let (_, output) = ROWS[1];
    let done = (Status::Done, "");
    expect_life(&rt, rt.alloc(), &[], &[5], done, output.len(), None)
}

#[test]
fn nothing_is_read_behind_the_line_that_decides(rt: HostRuntime) -> Result<(), Fail> {
    let kind = RefusalKind::Word(2);
    let refused = Status::Refused { line: 2, kind };
    expect_one_reading(&rt, rt.alloc(), &REPLAY, "trace 1\nown x\n", refused)?;
    let over = "trace 1\nown 127.0.0.1:3001\nend\nnow 5\n";
    expect_one_reading(&rt, rt.alloc(), &REPLAY, over, Status::Done)
}

// A head, and behind it one line so often, without an end.
fn endless(alloc: Global, line: &str, count: u64) -> Result<String, Fail> {
    let mut text = String::from_str(alloc, HEAD)?;
    for _ in 0..count {
        text.push_str(line)?;
    }
    Ok(text)
}

// A trace is too long at this line, and this is written of it and told.
fn expect_too_long<'a>(
    rt: &impl Abort,
    alloc: Global,
    input: &'a str,
    line: u64,
    out: &'a str,
    err: &'a str,
) -> Result<(), Fail> {
    let given = Given {
        words: &REPLAY,
        input,
        piece: 65_536,
        room: 8_000_000,
        ..PLAIN
    };
    let wanted = Wanted {
        status: Status::TooLong { line },
        out: Some(out.as_bytes()),
        err: Some(err.as_bytes()),
        calls: None,
    };
    expect(rt, alloc, given, wanted)
}

#[test]
fn a_trace_has_at_most_so_many_lines(rt: HostRuntime) -> Result<(), Fail> {
    assert!(rt; Status::TooLong { line: 1 }.code() == 9);
    let input = endless(rt.alloc(), "> \n", 4_000_000)?;
    let text = "too long: line 4000001\n";
    expect_too_long(&rt, rt.alloc(), &input, 4_000_001, HEAD, text)
}

#[test]
fn a_trace_has_at_most_so_many_events(rt: HostRuntime) -> Result<(), Fail> {
    let output = endless(rt.alloc(), "now 0\n", 1_000_000)?;
    let input = endless(rt.alloc(), "now 0\n", 1_000_001)?;
    let text = "too long: line 1000003\n";
    expect_too_long(&rt, rt.alloc(), &input, 1_000_003, &output, text)
}
