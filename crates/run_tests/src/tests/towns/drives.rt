ghost use Rattle.std.specs.Prelude.{◌≡◌, true, is_some, All, IfOk};
ghost use Rattle.net_base.specs.Bounds.{AreSound};
ghost use Rattle.net_base.specs.Limits.{IsWithinLimits};

use super::sink;
use io_edge::MemSink;
use net_base::{
    Action, Addr, AddrList, Away, Cid, Event, EventList, Ip, NumberList, Settings, StateName,
    Targets,
};
use node_settings::Config;
use node_world::{ScriptWorld, World};
use std::alloc::Global;
use std::process::Abort;
use std::test::Fail;
use trace_meaning::Outcome;
use world_drive::drive;

// 127.0.0.1 with a port.
pub(super) fn local(port: u16) -> Addr {
    Addr {
        ip: Ip::V4(0x7f00_0001),
        port,
    }
}

pub(super) fn settings() -> Settings
    ensures sound { AreSound result }
{
    Settings {
        version: 1,
        ..Settings::usual(local(3001))
    }
}

pub(super) fn config() -> Config {
    Config {
        settings: settings(),
        targets: Targets {
            root: 10,
            known: 20,
            established: 10,
            active: 5,
        },
        rootttl: 3_600_000,
        tick: 1000,
        seed: 0,
        announce: true,
    }
}

fn accepted() -> Event
    ensures { IsWithinLimits result }
{
    Event::Accepted(local(3002))
}

// A world in which the same peer connects once; the calls of these numbers fail.
fn opened(alloc: Global, failing: &[u64]) -> Result<ScriptWorld, Fail>
    ensures { IfOk result (λ world. is_some world.opening ≡ true) }
{
    let mut events = EventList::new(alloc);
    events.push(accepted())?;
    let mut world = ScriptWorld::new(alloc, events, NumberList::from_slice(alloc, failing)?);
    match world.open(&config(), &AddrList::new(alloc)) {
        Ok(()) => Ok(world),
        Err(_) => Err("the world does not open".into()),
    }
}

// A peer is given, and up to three events of the world are taken.
fn outcome_of(alloc: Global, world: &mut ScriptWorld, out: &mut MemSink) -> Outcome
    requires { is_some world.old.opening ≡ true }
{
    drive(alloc, &settings(), &[accepted()], world, 3, out)
}

// Whether the first so many of the actions of a whole run were done, in their order.
fn are_done(done: &[Action], count: usize) -> bool {
    let actions = [
        Action::Admit(Cid(1), local(3002)),
        Action::State(Cid(1), StateName::UnnegotiatedInbound),
        Action::Turnaway(Away::Present),
    ];
    Some(done) == actions.get(..count)
}

// Of the world's calls those of these numbers fail: what comes of it, is written and is done.
fn expect_drive(
    rt: &impl Abort,
    alloc: Global,
    failing: &[u64],
    outcome: Outcome,
    text: &str,
    done: usize,
) -> Result<(), Fail> {
    let mut world = opened(alloc, failing)?;
    let mut out = sink(alloc, 500, &[])?;
    assert!(rt; outcome_of(alloc, &mut world, &mut out) == outcome);
    assert!(rt; out.bytes() == text.as_bytes());
    assert!(rt; are_done(world.done().as_slice(), done));
    Ok(())
}

#[test]
fn a_peer_that_connects_twice_is_turned_away(rt: HostRuntime) -> Result<(), Fail> {
    let text =
        "trace 1\nown 127.0.0.1:3001\nset magic 42\nset initiatoronly 0\nset sharing 1\nset hard 512\nset soft 384\nset delay 5000\nset idle 5000\nset timewait 60000\nset handshake 10000\nset reply 10000\nset backoff 5000\nset sharegap 900000\nset shares 2\naccepted 127.0.0.1:3002\n> admit 1 127.0.0.1:3002\n> state 1 UnnegotiatedInbound\naccepted 127.0.0.1:3002\n> turnaway present\nend\n";
    expect_drive(&rt, rt.alloc(), &[], Outcome::Done, text, 3)
}

// The fourth call is that for the last action.
#[test]
fn an_action_of_a_world_fails(rt: HostRuntime) -> Result<(), Fail> {
    let text =
        "trace 1\nown 127.0.0.1:3001\nset magic 42\nset initiatoronly 0\nset sharing 1\nset hard 512\nset soft 384\nset delay 5000\nset idle 5000\nset timewait 60000\nset handshake 10000\nset reply 10000\nset backoff 5000\nset sharegap 900000\nset shares 2\naccepted 127.0.0.1:3002\n> admit 1 127.0.0.1:3002\n> state 1 UnnegotiatedInbound\naccepted 127.0.0.1:3002\n> turnaway present\n";
    expect_drive(&rt, rt.alloc(), &[4], Outcome::WorldFault, text, 2)
}
