use io_edge::{MemSink, MemSource};
use net_base::{NumberList, Octets, OutOfMemory, RefusalKind};
use pair_net::{PairOutcome, pair_run};
use std::alloc::Global;

const MEETING: &[u8] =
    b"pair 1\nleft 42 0 1\nright 42 0 1\nmeet left\n> any note\ndeliver right 25\ndeliver left 17\nend\n";

const MEETING_TOLD: &[u8] = b"pair 1
left 42 0 1
right 42 0 1
meet left
> left dialing
> left send 00000000000000118200a20d84182af401f40e84182af401f4
> right accepting
deliver right 25
> right send 000000008000000983010e84182af401f4
> right agreed 14 duplex sharing
deliver left 17
> left agreed 14 duplex sharing
end
";

const CROSSING: &[u8] =
    b"pair 1\nleft 42 0 1\nright 42 1 1\ncross\ndeliver left 25\ndeliver right 100\nend\n";

const CROSSING_TOLD: &[u8] = b"pair 1
left 42 0 1
right 42 1 1
cross
> left dialing
> left send 00000000000000118200a20d84182af401f40e84182af401f4
> right dialing
> right send 00000000000000118200a20d84182af501f40e84182af501f4
deliver left 25
> left ended refused
deliver right 100
> right ended refused
end
";

fn source(alloc: Global, input: &[u8]) -> Result<MemSource, OutOfMemory> {
    let bytes = Octets::from_slice(alloc, input)?;
    Ok(MemSource::new(bytes, 20, NumberList::new(alloc)))
}

fn sink(alloc: Global) -> Result<MemSink, OutOfMemory> {
    MemSink::new(alloc, 1000, NumberList::new(alloc))
}

fn is_told(out: &MemSink, text: Option<&[u8]>) -> bool {
    match text {
        Some(text) => out.bytes() == text,
        None => true,
    }
}

// Whether an input comes to this, and this text is written, where one is asked for.
fn comes_to(
    alloc: Global,
    input: &[u8],
    outcome: PairOutcome,
    text: Option<&[u8]>,
) -> Result<bool, OutOfMemory> {
    let mut src = source(alloc, input)?;
    let mut out = sink(alloc)?;
    let came = pair_run(alloc, &mut src, &mut out);
    Ok(came == outcome && is_told(&out, text))
}

fn is_whole(alloc: Global, input: &[u8], text: &[u8]) -> bool {
    matches!(
        comes_to(alloc, input, PairOutcome::Done, Some(text)),
        Ok(true)
    )
}

fn is_refused(alloc: Global, input: &[u8], line: u64, kind: RefusalKind) -> bool {
    let refused = PairOutcome::Refused { line, kind };
    matches!(comes_to(alloc, input, refused, None), Ok(true))
}

#[test]
fn the_lines_of_a_meeting(rt: HostRuntime) {
    assert!(rt; is_whole(rt.alloc(), MEETING, MEETING_TOLD));
}

#[test]
fn the_lines_of_a_crossing(rt: HostRuntime) {
    assert!(rt; is_whole(rt.alloc(), CROSSING, CROSSING_TOLD));
}

#[test]
fn heads_that_are_refused(rt: HostRuntime) {
    let alloc = rt.alloc();
    assert!(rt; is_refused(alloc, b"pair 2\n", 1, RefusalKind::Word(2)));
    assert!(rt; is_refused(alloc, b"pair 1\n> \n", 2, RefusalKind::Word(1)));
    let left = b"pair 1\nleft 4294967296 0 0\n";
    assert!(rt; is_refused(alloc, left, 2, RefusalKind::Number(2)));
}

#[test]
fn steps_that_are_refused(rt: HostRuntime) {
    let alloc = rt.alloc();
    let head = b"pair 1\nleft 0 0 0\nright 0 0 2\n";
    assert!(rt; is_refused(alloc, head, 3, RefusalKind::Number(4)));
    let step = b"pair 1\nleft 0 0 0\nright 0 0 0\ndeliver left 0 x\n";
    assert!(rt; is_refused(alloc, step, 4, RefusalKind::Number(3)));
    let end = b"pair 1\nleft 0 0 0\nright 0 0 0\n> \nmeet left";
    assert!(rt; is_refused(alloc, end, 5, RefusalKind::NoEnd));
}
