ghost use Rattle.std.specs.Prelude.{◌≡◌, [], Some, None, false, true, IfOk};

use super::place::{ROOM, shelf, strings};
use super::{SETTINGS, TOPOLOGY};
use crate::tests::sinks::sink;
use io_edge::{Failed, MemShelf, MemSink, Sink};
use net_base::{Action, AddrList};
use node_run::run_node;
use node_settings::Config;
use node_world::{Next, World, WorldRefusal};
use std::alloc::Global;
use std::cell::Cell;
use std::process::Abort;
use std::test::Fail;
use tool_status::Status;

// A sink that notes how many bytes it took where a world can see it.
#[derive(Drop)]
struct NotedSink<'a> {
    sink: MemSink,
    said: &'a Cell<usize>,
}

impl<'a> Sink for NotedSink<'a> {
    ghost taken = { λ s. Some s.sink.taken };

    ghost faults = { λ s. s.sink.calls.faults };

    fn put(&mut self, piece: &[u8]) -> Result<usize, Failed> {
        let count = self.sink.put(piece)?;
        self.said.set(self.said.get().saturating_add(count));
        Ok(count)
    }
}

// A world that never opens, how often it was asked to, and how much had been told when it was asked last.
#[derive(Drop)]
struct ShutWorld<'a> {
    is_open: bool,
    faults: u64,
    said: &'a Cell<usize>,
    heard: usize,
}

impl<'a> World for ShutWorld<'a> {
    ghost is_open = { λ w. w.is_open };

    ghost has_ended = { λ _. false };

    ghost faults = { λ w. w.faults };

    ghost opening = { λ _. Some None };

    ghost taken = { λ _. Some [] };

    ghost done = { λ _. Some [] };

    fn open(&mut self, _: &Config, _: &AddrList) -> Result<(), WorldRefusal> {
        self.heard = self.said.get();
        self.faults = self.faults.saturating_add(1);
        Err(WorldRefusal::Failed)
    }

    fn next(&mut self) -> Result<Next, WorldRefusal> {
        self.faults = self.faults.saturating_add(1);
        Err(WorldRefusal::Failed)
    }

    fn act(&mut self, _: &Action) -> Result<(), WorldRefusal> {
        self.faults = self.faults.saturating_add(1);
        Err(WorldRefusal::Failed)
    }
}

// Where a node stands whose world never opens.
#[derive(Drop)]
struct ShutPlace<'a> {
    shelf: MemShelf,
    world: ShutWorld<'a>,
    out: MemSink,
    err: NotedSink<'a>,
}

fn make_shut<'a>(alloc: Global, said: &'a Cell<usize>) -> Result<ShutPlace<'a>, Fail>
    ensures { IfOk result (λ place. place.world.is_open ≡ false) }
{
    let shelf = shelf(alloc, Some(SETTINGS), Some(TOPOLOGY), &[])?;
    let out = sink(alloc, ROOM, &[])?;
    let err = NotedSink {
        sink: sink(alloc, ROOM, &[])?,
        said,
    };
    Ok(ShutPlace {
        shelf,
        world: ShutWorld {
            is_open: false,
            faults: 0,
            said,
            heard: 0,
        },
        out,
        err,
    })
}

fn run_shut(alloc: Global, words: &[String], place: &mut ShutPlace<'_>) -> Status
    requires { place.old.world.is_open ≡ false }
{
    run_node(
        alloc,
        words,
        &mut place.shelf,
        &mut place.world,
        &mut place.out,
        &mut place.err,
    )
}

// It was asked to open once, when what is not resolved had been told and nothing else, and nothing was written.
fn expect_shut(rt: &impl Abort, place: &ShutPlace<'_>) {
    assert!(rt; place.world.faults == 1);
    assert!(rt; place.world.heard == "unresolved 1\n".len());
    assert!(rt; place.out.bytes().is_empty());
    assert!(rt; place.err.sink.bytes() == b"unresolved 1\nworld fault\n".as_slice());
}

#[test]
fn a_world_that_does_not_open_is_told_behind_what_is_not_resolved(
    rt: HostRuntime,
) -> Result<(), Fail> {
    let words = strings(rt.alloc(), &["node", "c", "t", "0"])?;
    let said = Cell::new(0);
    let mut place = make_shut(rt.alloc(), &said)?;
    let status = run_shut(rt.alloc(), &words, &mut place);
    assert!(rt; status == Status::WorldFault);
    expect_shut(&rt, &place);
    Ok(())
}
