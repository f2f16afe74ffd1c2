ghost use Rattle.std.specs.Prelude.{◌≡◌, true, IfOk};
ghost use Rattle.net_base.specs.Limits.{IsWithinLimits};

use super::{EVENTS_MOST, advance, local};
use loop_world::LoopWorld;
use net_base::{
    Action, Addr, AddrList, Cid, Event, Facts, Group, GroupList, OutOfMemory, Phase, Settings,
    Targets,
};
use node_engine::Engine;
use node_settings::Config;
use node_world::{Next, World};
use pick_policy::{Picker, RankedPicker};
use std::alloc::Global;
use std::net::{SocketAddr, TcpListener};
use std::test::Fail;

mod sockets;

// A listener at a port that the system picks.
fn listener(rt: &HostRuntime) -> Result<TcpListener, Fail> {
    Ok(TcpListener::bind(rt, SocketAddr::from(([127, 0, 0, 1], 0)))?)
}

fn address_of(listener: &TcpListener) -> Result<Addr, Fail> {
    Ok(local(listener.local_addr()?.port()))
}

// Two addresses at which nobody listens.
fn free_addresses(rt: &HostRuntime) -> Result<(Addr, Addr), Fail> {
    let left = listener(rt)?;
    let right = listener(rt)?;
    Ok((address_of(&left)?, address_of(&right)?))
}

fn settings_of(own: Addr) -> Settings {
    Settings {
        backoff: 500,
        ..Settings::usual(own)
    }
}

fn config_of(own: Addr) -> Config {
    Config {
        settings: settings_of(own),
        targets: Targets {
            root: 10,
            known: 20,
            established: 10,
            active: 5,
        },
        rootttl: 3_600_000,
        tick: 10,
        seed: 0,
        announce: true,
    }
}

// A world that listens at an address.
fn opened<'a>(rt: &'a HostRuntime, own: Addr) -> Result<LoopWorld<&'a HostRuntime>, Fail>
    ensures { IfOk result (λ world. world.is_open ≡ true) }
{
    let mut world = LoopWorld::new(rt.alloc(), rt);
    match world.open(&config_of(own), &AddrList::new(rt.alloc())) {
        Ok(()) => Ok(world),
        Err(_) => Err("the world does not open".into()),
    }
}

// The one with this address is a local root peer, and is to be warm.
fn is_local(alloc: Global, other: Addr) -> Result<Event, OutOfMemory>
    ensures { IfOk result IsWithinLimits }
{
    let mut groups = GroupList::new(alloc);
    groups.push(Group {
        hot: 0,
        warm: 1,
        advertise: false,
        members: AddrList::from_slice(alloc, &[other])?,
    })?;
    Ok(Event::Locals(groups))
}

// A node, and the address of the one that it is to meet.
#[derive(Drop)]
struct Node {
    alloc: Global,
    engine: Engine,
    other: Addr,
}

impl Node {
    // A connection to the other one is negotiated and in local use.
    fn has_met(&self) -> bool {
        for id in 1..65 {
            if is_met(self.engine.facts(Cid(id)), self.other) {
                return true;
            }
        }
        false
    }
}

fn is_met(facts: Option<Facts>, other: Addr) -> bool {
    match facts {
        Some(facts) => facts.addr == other && facts.phase == Phase::Negotiated && facts.local,
        None => false,
    }
}

fn do_all<W: World>(world: &mut W, actions: &[Action]) -> Result<(), Fail>
    requires { W.is_open world.old ≡ true }
    ensures { W.is_open world.new ≡ true }
{
    for action in actions {
        if world.act(action).is_err() {
            return Err("an action fails".into());
        }
    }
    Ok(())
}

// The step of an event, and what it asks of the world.
fn step<W: World>(node: &mut Node, event: &Event, world: &mut W) -> Result<(), Fail>
    requires open { W.is_open world.old ≡ true }
    requires within { IsWithinLimits event.now }
    ensures { W.is_open world.new ≡ true }
{
    let actions = advance(node.alloc, &mut node.engine, event)?;
    do_all(world, actions.as_slice())
}

// What happens next in its world.
fn turn<W: World>(node: &mut Node, world: &mut W) -> Result<(), Fail>
    requires { W.is_open world.old ≡ true }
    ensures { W.is_open world.new ≡ true }
{
    match world.next() {
        Ok(Next::Event(event)) => step(node, &event, world),
        Ok(Next::End) => Err("the world has ended".into()),
        Err(_) => Err("no event comes".into()),
    }
}

// A node hears of the other one.
fn begin<W: World>(alloc: Global, node: &mut Node, world: &mut W) -> Result<(), Fail>
    requires { W.is_open world.old ≡ true }
    ensures { W.is_open world.new ≡ true }
{
    let event = is_local(alloc, node.other)?;
    step(node, &event, world)
}

// Each node in turn, until each has met the other.
fn meet<W: World>(
    left: &mut Node,
    left_world: &mut W,
    right: &mut Node,
    right_world: &mut W,
) -> Result<bool, Fail>
    requires left { W.is_open left_world.old ≡ true }
    requires right { W.is_open right_world.old ≡ true }
{
    for _ in 1..EVENTS_MOST {
        turn(left, left_world)?;
        turn(right, right_world)?;
        if left.has_met() && right.has_met() {
            return Ok(true);
        }
    }
    Ok(false)
}

// Two nodes in two worlds, each of which has the other as a local root peer.
fn meet_in<W: World>(
    alloc: Global,
    left: &mut Node,
    left_world: &mut W,
    right: &mut Node,
    right_world: &mut W,
) -> Result<bool, Fail>
    requires left { W.is_open left_world.old ≡ true }
    requires right { W.is_open right_world.old ≡ true }
{
    begin(alloc, left, left_world)?;
    begin(alloc, right, right_world)?;
    meet(left, left_world, right, right_world)
}

fn do_meet(rt: &HostRuntime, left: &mut Node, right: &mut Node) -> Result<bool, Fail> {
    let mut left_world = opened(rt, right.other)?;
    let mut right_world = opened(rt, left.other)?;
    meet_in(rt.alloc(), left, &mut left_world, right, &mut right_world)
}

#[test]
fn two_nodes_meet(rt: HostRuntime) -> Result<(), Fail> {
    let alloc = rt.alloc();
    let (left, right) = free_addresses(&rt)?;
    let mut nodes = Vec::new(alloc);
    for (own, other) in [(left, right), (right, left)] {
        let picker = Picker::new(Box::new(alloc, |addr: Addr, word: u64| {
            addr.key().wrapping_add(word)
        })?);
        let ranked = RankedPicker::new(Box::new(alloc, |addr: Addr, failures: u64, word: u64| {
            failures.min(65_535) * 281_474_976_710_656
                + addr.key().wrapping_add(word) % 281_474_976_710_656
        })?);
        let Ok(engine) = Engine::new(alloc, settings_of(own), picker, ranked) else {
            return Err("no engine".into());
        };
        nodes.push(Node {
            alloc,
            engine,
            other,
        })?;
    }
    let (Some(mut right), Some(mut left)) = (nodes.pop(), nodes.pop()) else {
        return Err("no pair".into());
    };
    assert!(rt; do_meet(&rt, &mut left, &mut right)?);
    Ok(())
}
