ghost use Rattle.std.specs.Prelude.{◌≤◌};

use io_edge::MemSink;
use net_base::{NumberList, OutOfMemory};
use std::alloc::Global;
use std::process::Abort;
use std::test::Fail;
use trace_meaning::Outcome;
use world_drive::drill;

mod drives;

fn sink(alloc: Global, room: usize, failing: &[u64]) -> Result<MemSink, OutOfMemory> {
    MemSink::new(alloc, room, NumberList::from_slice(alloc, failing)?)
}

fn outcome_of(alloc: Global, seed: u64, count: u64, out: &mut MemSink) -> Outcome
    requires { count ≤ 1_000_000 }
{
    drill(alloc, seed, count, out)
}

// A drill into so much room, of which the writings of these numbers fail, comes to an outcome and writes a text.
fn expect_drill(
    rt: &impl Abort,
    alloc: Global,
    drilled: (u64, u64),
    room: usize,
    failing: &[u64],
    outcome: Outcome,
    text: &str,
) -> Result<(), Fail> {
    let (seed, count) = drilled;
    assert!(rt; count <= 1_000_000);
    let mut out = sink(alloc, room, failing)?;
    assert!(rt; outcome_of(alloc, seed, count, &mut out) == outcome);
    assert!(rt; out.bytes() == text.as_bytes());
    Ok(())
}

// What a program of another language counted.
#[test]
fn a_town_of_a_hundred_events(rt: HostRuntime) -> Result<(), Fail> {
    let text =
        "events 100\nactions 210\nadmitted 1\nturned 0\ndials 21\ncloses 0\nestablished 16\nactive 6\n";
    expect_drill(&rt, rt.alloc(), (4, 100), 100, &[], Outcome::Done, text)
}

#[test]
fn a_town_of_hundred_thousand_events(rt: HostRuntime) -> Result<(), Fail> {
    let text =
        "events 100000\nactions 63749\nadmitted 8140\nturned 3174\ndials 173\ncloses 8218\nestablished 16\nactive 6\n";
    expect_drill(&rt, rt.alloc(), (7, 100_000), 200, &[], Outcome::Done, text)
}

#[test]
fn a_town_without_events(rt: HostRuntime) -> Result<(), Fail> {
    let text =
        "events 0\nactions 0\nadmitted 0\nturned 0\ndials 0\ncloses 0\nestablished 0\nactive 0\n";
    expect_drill(&rt, rt.alloc(), (7, 0), 100, &[], Outcome::Done, text)
}

#[test]
fn a_sink_fails_or_is_full(rt: HostRuntime) -> Result<(), Fail> {
    let fault = Outcome::WriteFault;
    expect_drill(&rt, rt.alloc(), (4, 10), 100, &[1], fault, "")?;
    expect_drill(&rt, rt.alloc(), (4, 10), 12, &[], fault, "events 10\nac")
}
