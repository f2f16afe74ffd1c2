use super::LIMITS_REPLAYED;
use super::rows::ROWS;
use super::running::{End, Given, PLAIN, Wanted, expect, expect_each, expect_one_reading};
use net_base::RefusalKind;
use std::alloc::Global;
use std::process::Abort;
use std::test::Fail;
use tool_status::Status;

const CHECK: [&str; 1] = ["check"];

const AGREEING: [(&str, End); 3] = [
    (
        "trace 1\nown 127.0.0.1:3001\nend\n",
        End::Done("agree 0 0\n"),
    ),
    (
        "trace 1\nown 127.0.0.1:3001\naccepted 127.0.0.1:3002\n> admit 1 127.0.0.1:3002\n> state 1 UnnegotiatedInbound\nend\n",
        End::Done("agree 1 2\n"),
    ),
    (LIMITS_REPLAYED, End::Done("agree 5 9\n")),
];

// A check of a trace that agrees, with the calls that fail, ends so. What it writes may not be given.
fn expect_status<'a>(
    rt: &impl Abort,
    alloc: Global,
    input: &'a str,
    failing: (&'a [u64], &'a [u64]),
    status: Status,
    out: Option<&'a [u8]>,
) -> Result<(), Fail> {
    let (readings, writings) = failing;
    let given = Given {
        words: &CHECK,
        input,
        readings,
        writings,
        ..PLAIN
    };
    let wanted = Wanted {
        status,
        out,
        err: None,
        calls: None,
    };
    expect(rt, alloc, given, wanted)
}

#[test]
fn traces_that_agree_are_counted(rt: HostRuntime) -> Result<(), Fail> {
    for piece in [1, 64] {
        expect_each(&rt, rt.alloc(), &CHECK, piece, &AGREEING)?;
    }
    for &(_, output) in &ROWS {
        expect_status(&rt, rt.alloc(), output, (&[], &[]), Status::Done, None)?;
    }
    Ok(())
}

const DIFFERING: [(&str, End); 5] = [
    (
        "trace 1\nown 127.0.0.1:3001\naccepted 127.0.0.1:3002\n> admit 1 127.0.0.1:3002\n> state 1 InboundIdle\nend\n",
        End::Differs(
            5,
            "differ 5\nfound > state 1 InboundIdle\nwant > state 1 UnnegotiatedInbound\n",
        ),
    ),
    (
        "trace 1\nown 127.0.0.1:3001\naccepted 127.0.0.1:3002\nend\n",
        End::Differs(4, "differ 4\nfound end\nwant > admit 1 127.0.0.1:3002\n"),
    ),
    (
        "trace 1\nown 127.0.0.1:3001\nnow 5\n> pause 1\nend\n",
        End::Differs(4, "differ 4\nfound > pause 1\nwant no action\n"),
    ),
    (
        "trace 1\nown 127.0.0.1:3001\n> ~\t\u{e9}\nset hard 2\nend\n",
        End::Differs(3, "differ 3\nfound > ~\t\u{e9}\nwant no action\n"),
    ),
    // what stands behind that line is not judged
    (
        "trace 1\nown 127.0.0.1:3001\naccepted 127.0.0.1:3002\nnow 5\nnow 01\n",
        End::Differs(4, "differ 4\nfound now 5\nwant > admit 1 127.0.0.1:3002\n"),
    ),
];

#[test]
fn the_first_line_that_differs_is_shown(rt: HostRuntime) -> Result<(), Fail> {
    assert!(rt; Status::Differ { line: 5 }.code() == 1);
    expect_each(&rt, rt.alloc(), &CHECK, 64, &DIFFERING)
}

const REFUSED: [(&str, End); 2] = [
    (
        "trace 1\nown 127.0.0.1:3001\naccepted 127.0.0.1:3002\nnow 01\nend\n",
        End::Refused(4, RefusalKind::Number(2), "", "line 4 refused: number 2\n"),
    ),
    (
        "trace 1\nown 127.0.0.1:3001\naccepted 127.0.0.1:3002\n",
        End::Refused(4, RefusalKind::NoEnd, "", "line 4 refused: no end\n"),
    ),
];

#[test]
fn a_line_that_is_refused_is_not_compared(rt: HostRuntime) -> Result<(), Fail> {
    expect_each(&rt, rt.alloc(), &CHECK, 64, &REFUSED)
}

// A check of which a call fails: nothing is written.
fn expect_fault<'a>(
    rt: &impl Abort,
    alloc: Global,
    readings: &'a [u64],
    writings: &'a [u64],
    status: Status,
) -> Result<(), Fail> {
    let failing = (readings, writings);
    expect_status(rt, alloc, LIMITS_REPLAYED, failing, status, Some(b""))
}

#[test]
fn each_call_of_a_check_fails_in_turn(rt: HostRuntime) -> Result<(), Fail> {
    let alloc = rt.alloc();
    for call in 1u64..=6 {
        expect_fault(&rt, alloc, &[call], &[], Status::ReadFault)?;
    }
    expect_fault(&rt, alloc, &[], &[1], Status::WriteFault)?;
    // nothing is read behind the line that differs
    let input = "trace 1\nown 127.0.0.1:3001\n> \n";
    expect_one_reading(&rt, alloc, &CHECK, input, Status::Differ { line: 3 })
}
