ghost use Rattle.std.specs.Prelude.{◌≡◌, true, is_some, IfOk};

use net_base::{
    Action, Addr, AddrList, Cid, Event, EventList, Group, GroupList, Ip, Job, NumberList, Octets,
    OutOfMemory, RootAnswer, Settings, Targets,
};
use node_settings::Config;
use node_world::*;
use std::alloc::Global;
use std::process::Abort;
use std::test::Fail;

// 10.0.0.NUMBER:3001.
fn peer(number: u8) -> Addr {
    Addr {
        ip: Ip::V4(0x0a00_0000 | u32::from(number)),
        port: 3001,
    }
}

fn peers(alloc: Global, numbers: &[u8]) -> Result<AddrList, OutOfMemory> {
    let mut peers = AddrList::new(alloc);
    for number in numbers {
        peers.push(peer(*number))?;
    }
    Ok(peers)
}

// An event that a world gives.
#[derive(Clone, Copy)]
enum Given {
    Now(u64),
    Aims,
    Locals,
    Roots,
    Bytes(u64, &'static [u8]),
    Dialed(u64, bool),
    Closed(u64),
    Govern(u64),
}

// An action that a world is asked for.
#[derive(Clone, Copy)]
enum Asked {
    Admit(u64, u8),
    Dial(u64, u8),
    Send(u64, &'static [u8]),
    AskRoots(u64),
    Pause(u64),
}

// What a world is to do next.
#[derive(Clone, Copy)]
enum Step {
    Gives(Given),
    Ends,
    Does(Asked),
    Fails(Asked),
}

// The first event of a town, which is not drawn.
const AIMS: Targets = Targets {
    root: 8,
    known: 40,
    established: 16,
    active: 6,
};

// The second one.
fn locals(alloc: Global) -> Result<Event, OutOfMemory> {
    let mut groups = GroupList::new(alloc);
    groups.push(Group {
        hot: 1,
        warm: 2,
        advertise: true,
        members: peers(alloc, &[1, 2, 3])?,
    })?;
    Ok(Event::Locals(groups))
}

// The roots that it is asked for.
fn roots(alloc: Global) -> Result<Event, OutOfMemory> {
    let roots = peers(alloc, &[11, 12, 13, 14, 15, 16, 17, 18])?;
    Ok(Event::Roots(Job(1), RootAnswer::Found(3_600_000, roots)))
}

fn event(alloc: Global, given: Given) -> Result<Event, OutOfMemory> {
    Ok(match given {
        Given::Now(moment) => Event::Now(moment),
        Given::Aims => Event::Aims(AIMS),
        Given::Locals => return locals(alloc),
        Given::Roots => return roots(alloc),
        Given::Bytes(cid, bytes) => Event::Bytes(Cid(cid), Octets::from_slice(alloc, bytes)?),
        Given::Dialed(cid, is_open) => Event::Dialed(Cid(cid), is_open),
        Given::Closed(cid) => Event::Closed(Cid(cid)),
        Given::Govern(word) => Event::Govern(word),
    })
}

fn action(alloc: Global, asked: Asked) -> Result<Action, OutOfMemory> {
    Ok(match asked {
        Asked::Admit(cid, number) => Action::Admit(Cid(cid), peer(number)),
        Asked::Dial(cid, number) => Action::Dial(Cid(cid), peer(number)),
        Asked::Send(cid, bytes) => Action::Send(Cid(cid), Octets::from_slice(alloc, bytes)?),
        Asked::AskRoots(job) => Action::AskRoots(Job(job)),
        Asked::Pause(time) => Action::Pause(time),
    })
}

// Whether the world gives this next.
fn gives<W: World>(world: &mut W, wanted: &Next) -> bool
    requires { W.is_open world.old ≡ true }
    ensures { W.is_open world.new ≡ true }
{
    match world.next() {
        Ok(next) => next == *wanted,
        Err(_) => false,
    }
}

// Whether the world answers this when it is asked for an action.
fn does<W: World>(world: &mut W, action: &Action, wanted: Result<(), WorldRefusal>) -> bool
    requires { W.is_open world.old ≡ true }
    ensures { W.is_open world.new ≡ true }
{
    world.act(action) == wanted
}

// Whether the world does what is to come next.
fn holds<W: World>(alloc: Global, world: &mut W, step: Step) -> Result<bool, OutOfMemory>
    requires { W.is_open world.old ≡ true }
    ensures { W.is_open world.new ≡ true }
{
    Ok(match step {
        Step::Gives(given) => gives(world, &Next::Event(event(alloc, given)?)),
        Step::Ends => gives(world, &Next::End),
        Step::Does(asked) => does(world, &action(alloc, asked)?, Ok(())),
        Step::Fails(asked) => does(world, &action(alloc, asked)?, Err(WorldRefusal::Failed)),
    })
}

fn take_all<W: World>(
    rt: &impl Abort,
    alloc: Global,
    world: &mut W,
    steps: &[Step],
) -> Result<(), Fail>
    requires { W.is_open world.old ≡ true }
    ensures { W.is_open world.new ≡ true }
{
    for (n, step) in steps.iter().enumerate() {
        assert!(rt; holds(alloc, world, *step)?, "at step {n}");
    }
    Ok(())
}

fn config() -> Config {
    Config {
        settings: Settings::usual(peer(1)),
        targets: Targets {
            root: 10,
            known: 20,
            established: 10,
            active: 5,
        },
        rootttl: 3_600_000,
        tick: 1000,
        seed: 0,
        announce: true,
    }
}

// A world of two events; the calls of these numbers fail.
fn opened_script(alloc: Global, failing: &[u64]) -> Result<ScriptWorld, Fail>
    ensures { IfOk result (λ world. is_some world.opening ≡ true) }
{
    let mut events = EventList::new(alloc);
    events.push(Event::Now(5))?;
    events.push(Event::Closed(Cid(1)))?;
    let mut world = ScriptWorld::new(alloc, events, NumberList::from_slice(alloc, failing)?);
    match world.open(&config(), &peers(alloc, &[4])?) {
        Ok(()) => Ok(world),
        Err(_) => Err("the world does not open".into()),
    }
}

// These actions were done, in this order.
fn expect_done(
    rt: &impl Abort,
    alloc: Global,
    done: &[Action],
    wanted: &[Asked],
) -> Result<(), Fail> {
    assert!(rt; done.len() == wanted.len());
    for (n, asked) in wanted.iter().enumerate() {
        let wanted = action(alloc, *asked)?;
        assert!(rt; done.get(n) == Some(&wanted), "at action {n}");
    }
    Ok(())
}

fn play(
    rt: &impl Abort,
    alloc: Global,
    failing: &[u64],
    steps: &[Step],
    done: &[Asked],
) -> Result<(), Fail> {
    let mut world = opened_script(alloc, failing)?;
    take_all(rt, alloc, &mut world, steps)?;
    expect_done(rt, alloc, world.done().as_slice(), done)
}

const DONE: [Asked; 2] = [Asked::Dial(2, 5), Asked::Send(2, b"\x07")];

const GIVEN_AND_DONE: [Step; 3] = [
    Step::Gives(Given::Now(5)),
    Step::Does(Asked::Dial(2, 5)),
    Step::Does(Asked::Send(2, b"\x07")),
];

#[test]
fn a_script_gives_its_events_and_keeps_what_was_done(rt: HostRuntime) -> Result<(), Fail> {
    play(&rt, rt.alloc(), &[], &GIVEN_AND_DONE, &DONE)
}

const THIRD_CALL_FAILS: [Step; 5] = [
    Step::Gives(Given::Now(5)),
    Step::Does(Asked::Pause(9)),
    Step::Fails(Asked::Pause(9)),
    Step::Gives(Given::Closed(1)),
    Step::Ends,
];

#[test]
fn calls_of_a_script_fail_by_their_numbers(rt: HostRuntime) -> Result<(), Fail> {
    let done = [Asked::Pause(9)];
    play(&rt, rt.alloc(), &[3], &THIRD_CALL_FAILS, &done)
}

const ALIVE_DONE: &[u8] = b"\0\0\0\0\0\x08\0\x02\x81\x02";

// What seed 7 draws was made by a program of another language, which has PCG64 (XSL RR 128/64) and its seeding by PCG32
// as their C code has them.
const FIRST_TEN: [Step; 10] = [
    Step::Gives(Given::Aims),
    Step::Gives(Given::Locals),
    Step::Gives(Given::Bytes(1, ALIVE_DONE)),
    Step::Gives(Given::Closed(1)),
    Step::Gives(Given::Now(1201)),
    Step::Gives(Given::Now(5636)),
    Step::Gives(Given::Now(9372)),
    Step::Gives(Given::Bytes(1, ALIVE_DONE)),
    Step::Gives(Given::Bytes(1, ALIVE_DONE)),
    Step::Gives(Given::Now(10_150)),
];

#[test]
fn the_first_ten_events_of_a_town(rt: HostRuntime) -> Result<(), Fail> {
    let mut town = TownWorld::new(rt.alloc(), 7);
    assert!(rt; town.open(&config(), &AddrList::new(rt.alloc())) == Ok(()));
    take_all(&rt, rt.alloc(), &mut town, &FIRST_TEN)
}

// A peer is let in, one is dialed, and the node asks what it may. The dial and the shared address take a draw each, and
// what is drawn comes once nothing waits.
const ASKED_AND_ANSWERED: [Step; 16] = [
    Step::Does(Asked::Admit(2, 21)),
    Step::Does(Asked::Dial(3, 2)),
    Step::Does(Asked::Send(3, b"\0\0\0\0\0\x08\0\x03\x82\0\x03")),
    Step::Does(Asked::Send(3, b"\0\0\0\0\0\x0a\0\x03\x82\0\x02")),
    Step::Does(Asked::Send(3, b"\0\0\0\0\0\x02\0\x03\x82\x04\x80")),
    Step::Does(Asked::Send(3, b"\0\0\0\0\0\0\0\x03\x82\0\xa0")),
    Step::Does(Asked::Send(3, ALIVE_DONE)),
    Step::Does(Asked::AskRoots(1)),
    Step::Gives(Given::Bytes(
        2,
        b"\0\0\0\0\0\0\0\x11\x82\0\xa2\x0d\x84\x18\x2a\xf4\x01\xf4\x0e\x84\x18\x2a\xf4\x01\xf4",
    )),
    Step::Gives(Given::Dialed(3, false)),
    Step::Gives(Given::Bytes(3, b"\0\0\0\0\x80\x08\0\x03\x82\x01\x03")),
    Step::Gives(Given::Bytes(
        3,
        b"\0\0\0\0\x80\x0a\0\x0d\x82\x01\x81\x83\0\x1a\x0a\0\0\x21\x19\x0b\xb9",
    )),
    Step::Gives(Given::Bytes(3, b"\0\0\0\0\x80\x02\0\x05\x82\x06\x82\x80\0")),
    Step::Gives(Given::Bytes(
        3,
        b"\0\0\0\0\x80\0\0\x09\x83\x01\x0e\x84\x18\x2a\xf4\x01\xf4",
    )),
    Step::Gives(Given::Roots),
    Step::Gives(Given::Govern(3_251_572_882_586_621_912)),
];

#[test]
fn a_town_answers_before_anything_is_drawn(rt: HostRuntime) -> Result<(), Fail> {
    let mut town = TownWorld::new(rt.alloc(), 7);
    take_all(&rt, rt.alloc(), &mut town, &FIRST_TEN)?;
    take_all(&rt, rt.alloc(), &mut town, &ASKED_AND_ANSWERED)
}

fn goes_from_the_front(rt: &impl Abort, queue: &mut OutQueue) -> Result<(), Fail> {
    queue.put(b"abc")?;
    queue.put(b"de")?;
    assert!(rt; queue.front() == b"abcde".as_slice());
    queue.sent(2);
    assert!(rt; queue.front() == b"cde".as_slice());
    Ok(())
}

#[test]
fn what_is_sent_goes_from_the_front(rt: HostRuntime) -> Result<(), Fail> {
    let mut queue = OutQueue::new(rt.alloc());
    goes_from_the_front(&rt, &mut queue)
}
