use super::super::expect;
use super::RULES;
use io_edge::{MemSink, MemSource};
use local_clients::{ClientOutcome, clients_run};
use net_base::{NumberList, Octets, OutOfMemory, RefusalKind};
use std::alloc::Global;

const OPENED: &[u8] = b"joined
joined
> turnaway
bytes 1 00000000000000118200a219801082182af419801182182af4
bytes 1 0000000000070003820000
gone 1
joined
now 10000
end
";

const OPENED_TOLD: &[u8] = b"joined
> admit 1
joined
> turnaway
bytes 1 00000000000000118200a219801082182af419801182182af4
> send 1 0000000080000009830119801182182af4
> open 1 32785
bytes 1 0000000000070003820000
gone 1
joined
> admit 2
now 10000
> close 2 fault handshakewait
end
";

const REFUSED_CLIENT: &[u8] = b"joined\nbytes 1 00000000000000068200a1186380\nend\n";

const REFUSED_CLIENT_TOLD: &[u8] = b"joined
> admit 1
bytes 1 00000000000000068200a1186380
> send 1 000000008000000b8202820082198010198011
> close 1 refused
end
";

fn source(alloc: Global, input: &[u8]) -> Result<MemSource, OutOfMemory> {
    let bytes = Octets::from_slice(alloc, input)?;
    Ok(MemSource::new(bytes, 20, NumberList::new(alloc)))
}

fn sink(alloc: Global) -> Result<MemSink, OutOfMemory> {
    MemSink::new(alloc, 1000, NumberList::new(alloc))
}

fn is_told(out: &MemSink, text: Option<&[u8]>) -> bool {
    match text {
        Some(text) => out.bytes() == text,
        None => true,
    }
}

// Whether an input comes to this, and this text is written, where one is asked for.
fn comes_to(
    alloc: Global,
    input: &[u8],
    outcome: ClientOutcome,
    text: Option<&[u8]>,
) -> Result<bool, OutOfMemory> {
    let mut src = source(alloc, input)?;
    let mut out = sink(alloc)?;
    let came = clients_run(alloc, RULES, &mut src, &mut out);
    Ok(came == outcome && is_told(&out, text))
}

fn is_whole(alloc: Global, input: &[u8], text: &[u8]) -> bool {
    matches!(
        comes_to(alloc, input, ClientOutcome::Done, Some(text)),
        Ok(true)
    )
}

fn is_refused(alloc: Global, input: &[u8], line: u64, kind: RefusalKind) -> bool {
    let refused = ClientOutcome::Refused { line, kind };
    matches!(comes_to(alloc, input, refused, None), Ok(true))
}

#[test]
fn the_lines_of_a_client_that_opens(rt: HostRuntime) {
    assert!(rt; is_whole(rt.alloc(), OPENED, OPENED_TOLD));
}

#[test]
fn the_lines_of_a_client_that_is_refused(rt: HostRuntime) {
    assert!(rt; is_whole(rt.alloc(), REFUSED_CLIENT, REFUSED_CLIENT_TOLD));
}

#[test]
fn lines_that_are_refused(rt: HostRuntime) {
    let cases: [(&[u8], u64, RefusalKind); 8] = [
        (b"joined 1\nend\n", 1, RefusalKind::Word(2)),
        (b"> \nnow\nend\n", 2, RefusalKind::Word(2)),
        (b"now 281474976710657\n", 1, RefusalKind::Number(2)),
        (b"bytes 1 0\n", 1, RefusalKind::Word(3)),
        (b"bytes 01 00\n", 1, RefusalKind::Number(2)),
        (b"gone 1 \n", 1, RefusalKind::Word(3)),
        (b"closed 1\n", 1, RefusalKind::Word(1)),
        (b"joined\nend", 2, RefusalKind::NoEnd),
    ];
    for (input, line, kind) in cases {
        expect(&rt, is_refused(rt.alloc(), input, line, kind), input);
    }
}
