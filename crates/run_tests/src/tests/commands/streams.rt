use super::REPLAY;
use super::running::{End, expect_each};
use std::alloc::Global;
use std::process::Abort;
use std::test::Fail;

// A trace up to a place, and what is written of it.
#[derive(Clone, Copy)]
struct Before<'a> {
    read: &'a str,
    written: &'a str,
}

// A peer has connected.
const CONNECTED: Before<'static> = Before {
    read: "trace 1\nown 127.0.0.1:3001\naccepted 127.0.0.1:3002\n",
    written: "trace 1
own 127.0.0.1:3001
accepted 127.0.0.1:3002
> admit 1 127.0.0.1:3002
> state 1 UnnegotiatedInbound
",
};

// A peer has connected, and both agree on a duplex connection.
const AGREED: Before<'static> = Before {
    read: "trace 1
own 127.0.0.1:3001
accepted 127.0.0.1:3002
bytes 1 00000000000000118200a20d84182af401f40e84182af401f4
",
    written: "trace 1
own 127.0.0.1:3001
accepted 127.0.0.1:3002
> admit 1 127.0.0.1:3002
> state 1 UnnegotiatedInbound
bytes 1 00000000000000118200a20d84182af401f40e84182af401f4
> send 1 000000008000000983010e84182af401f4
> state 1 InboundIdle
",
};

const MALFORMED: &str = "> close 1 fault malformed\n> state 1 Terminated\n";

const DEEP: &str = "> close 1 fault deep\n> state 1 Terminated\n";

const UNKNOWN: &str = "> close 1 fault unknownid\n> state 1 Terminated\n";

const PROTOCOL: &str = "> close 1 fault protocol\n> state 1 Terminated\n";

const TOO_LONG: &str = "> close 1 fault toolong\n> state 1 Terminated\n";

// The line of bytes that come in: those of a head, and behind them one byte so often.
fn line_of(alloc: Global, head: &str, byte: &str, times: usize) -> Result<String, Fail> {
    let behind = byte.repeat(alloc, times)?;
    Ok(format!(in alloc; "bytes 1 {head}{behind}\n")?)
}

// The line comes behind the trace, and this is written of it.
fn expect_line<'a>(
    rt: &impl Abort,
    alloc: Global,
    before: Before<'a>,
    line: &'a str,
    answer: &'a str,
) -> Result<(), Fail> {
    let input = format!(in alloc; "{}{line}end\n", before.read)?;
    let output = format!(in alloc; "{}{line}{answer}end\n", before.written)?;
    let row = (input.as_str(), End::Done(output.as_str()));
    expect_each(rt, alloc, &REPLAY, 64, &[row])
}

// Bytes come in behind the trace, and this is written of them.
fn expect_bytes(
    rt: &impl Abort,
    alloc: Global,
    before: Before<'_>,
    bytes: (&str, &str, usize),
    answer: &str,
) -> Result<(), Fail> {
    let (head, byte, times) = bytes;
    let line = line_of(alloc, head, byte, times)?;
    expect_line(rt, alloc, before, &line, answer)
}

#[test]
fn streams_of_a_peer_that_greets(rt: HostRuntime) -> Result<(), Fail> {
    let alloc = rt.alloc();
    for (head, byte, times, answer) in [
        ("0000000000000001ff", "", 0, MALFORMED),
        ("000000000000000101", "", 0, MALFORMED),
        // arrays inside each other
        ("0000000000000041", "81", 65, DEEP),
        ("0000000000050000", "", 0, UNKNOWN),
        ("000000008000000100", "", 0, PROTOCOL),
        ("0000000000080003820007", "", 0, PROTOCOL),
        // one byte below the limit of what is not whole, and at it
        ("000000000000167f591680", "00", 5756, ""),
        ("0000000000001680591680", "00", 5757, TOO_LONG),
        // no whole header
        ("00000000000000", "", 0, ""),
    ] {
        expect_bytes(&rt, alloc, CONNECTED, (head, byte, times), answer)?;
    }
    Ok(())
}

#[test]
fn streams_of_a_peer_that_has_agreed(rt: HostRuntime) -> Result<(), Fail> {
    let alloc = rt.alloc();
    for (head, answer) in [
        // a reply that nobody owes, and an item of the handshake
        ("0000000080080003820100", PROTOCOL),
        ("000000000000000100", PROTOCOL),
        // no message of keep-alive, and no first number
        ("00000000000800028103", PROTOCOL),
        ("000000000002000180", PROTOCOL),
        ("00000000000200028105", "> state 1 Inbound\n"),
        (
            "00000000000800028102",
            "> state 1 Inbound\n> state 1 InboundIdle\n",
        ),
        (
            "00000000000a000482001864",
            "> state 1 Inbound\n> send 1 00000000800a0003820180\n",
        ),
    ] {
        expect_bytes(&rt, alloc, AGREED, (head, "", 0), answer)?;
    }
    Ok(())
}

// A header that is never whole is waited for as long as a handshake may take.
#[test]
fn a_header_that_is_cut_is_waited_for(rt: HostRuntime) -> Result<(), Fail> {
    let line = "bytes 1 00000000000000\nnow 10000\n";
    let answer = "> close 1 fault handshakewait\n> state 1 Terminated\n";
    expect_line(&rt, rt.alloc(), CONNECTED, line, answer)
}
