ghost use Rattle.std.specs.Prelude.{IfOk};
ghost use Rattle.net_base.specs.Limits.{IsWithinLimits};

use super::{advance, local};
use net_base::{
    Action, Addr, AddrList, Away, Cid, CloseCause, Event, FaultKind, Field, Group, GroupList, Kind,
    Octets, OutOfMemory, PeerNote, Settings, StateName, Temp,
};
use node_engine::{Engine, NewRefusal};
use pick_policy::{Picker, RankedPicker};
use std::alloc::Global;
use std::process::Abort;
use std::test::Fail;

// A node proposes two versions, or takes the greater one.
const PROPOSAL: [u8; 25] = [
    0, 0, 0, 0, 0, 0, 0, 0x11, 0x82, 0, 0xa2, 0x0d, 0x84, 0x18, 0x2a, 0xf4, 1, 0xf4, 0x0e, 0x84,
    0x18, 0x2a, 0xf4, 1, 0xf4,
];

const ACCEPTANCE: [u8; 17] = [
    0, 0, 0, 0, 0x80, 0, 0, 9, 0x83, 1, 0x0e, 0x84, 0x18, 0x2a, 0xf4, 1, 0xf4,
];
// Its first keep-alive.
const ALIVE: [u8; 11] = [0, 0, 0, 0, 0, 8, 0, 3, 0x82, 0, 1];

// What happens to a node: at connection 1 and with the peer at port 3002, where no other is named.
#[derive(Clone, Copy)]
enum Given {
    Accepted(u16),
    Closed,
    Now(u16),
    // The peer is local, and is to be warm.
    Local,
    Govern,
    Open,
    // The other side takes the proposal.
    Taken,
}

// What the node does.
#[derive(Clone, Copy)]
enum Does {
    Admits(u64, u16),
    TurnsAway(Away),
    Pauses(u64),
    Dials,
    Sends(&'static [u8]),
    // A handshake was waited for too long.
    Closes(u64),
    Names(u64, StateName),
    Notes(PeerNote),
}

// An event and what the node does about it, or what is to be seen of it then.
#[derive(Clone, Copy)]
enum Step {
    On(Given, &'static [Does]),
    Taken(u64),
    At(u64),
    Counted(u64),
    Stands(bool),
    Established(u64),
    Warm,
    // The first timer is that of a grace.
    Grace(u64),
}

// One group of one member, that is to be warm.
fn locals(alloc: Global, port: u16) -> Result<Event, OutOfMemory>
    ensures { IfOk result (λ event. IsWithinLimits event) }
{
    let members = AddrList::from_slice(alloc, &[local(port)])?;
    let mut groups = GroupList::new(alloc);
    groups.push(Group {
        hot: 0,
        warm: 1,
        advertise: false,
        members,
    })?;
    Ok(Event::Locals(groups))
}

// The other side takes the proposal.
fn acceptance(alloc: Global) -> Result<Event, OutOfMemory>
    ensures { IfOk result (λ event. IsWithinLimits event) }
{
    Ok(Event::Bytes(Cid(1), Octets::from_slice(alloc, &ACCEPTANCE)?))
}

fn event(alloc: Global, given: Given) -> Result<Event, OutOfMemory>
    ensures { IfOk result (λ event. IsWithinLimits event) }
{
    match given {
        Given::Accepted(port) => Ok(Event::Accepted(local(port))),
        Given::Closed => Ok(Event::Closed(Cid(1))),
        Given::Now(now) => Ok(Event::Now(u64::from(now))),
        Given::Local => locals(alloc, 3002),
        Given::Govern => Ok(Event::Govern(0)),
        Given::Open => Ok(Event::Dialed(Cid(1), true)),
        Given::Taken => acceptance(alloc),
    }
}

fn action(alloc: Global, does: Does) -> Result<Action, OutOfMemory> {
    Ok(match does {
        Does::Admits(cid, port) => Action::Admit(Cid(cid), local(port)),
        Does::TurnsAway(why) => Action::Turnaway(why),
        Does::Pauses(delay) => Action::Pause(delay),
        Does::Dials => Action::Dial(Cid(1), local(3002)),
        Does::Sends(bytes) => Action::Send(Cid(1), Octets::from_slice(alloc, bytes)?),
        Does::Closes(cid) => Action::Close(Cid(cid), CloseCause::Fault(FaultKind::HandshakeWait)),
        Does::Names(cid, name) => Action::State(Cid(cid), name),
        Does::Notes(note) => Action::Peer(local(3002), note),
    })
}

fn are_done(
    rt: &impl Abort,
    alloc: Global,
    actions: &[Action],
    wanted: &[Does],
) -> Result<(), Fail> {
    assert!(rt; actions.len() == wanted.len());
    for (place, does) in wanted.iter().enumerate() {
        let action = action(alloc, *does)?;
        assert!(rt; actions.get(place) == Some(&action));
    }
    Ok(())
}

// An event is taken, and the node does that.
fn expect(
    rt: &impl Abort,
    alloc: Global,
    engine: &mut Engine,
    given: Given,
    wanted: &[Does],
) -> Result<(), Fail> {
    let event = event(alloc, given)?;
    let actions = advance(alloc, engine, &event)?;
    are_done(rt, alloc, actions.as_slice(), wanted)
}

fn is_seen(engine: &Engine, step: Step) -> bool {
    match step {
        Step::On(..) => false,
        Step::Taken(taken) => engine.taken() == taken,
        Step::At(now) => engine.now() == now,
        Step::Counted(counted) => engine.tally().counted == counted,
        Step::Stands(stands) => engine.facts(Cid(1)).is_some() == stands,
        Step::Established(established) => engine.tally().established == established,
        Step::Warm => matches!(engine.peer(local(3002)), Some(peer) if peer.temp == Temp::Warm),
        Step::Grace(at) => engine.timers().least() == Some((at, Cid(1), Kind::Grace)),
    }
}

fn take_all(
    rt: &impl Abort,
    alloc: Global,
    engine: &mut Engine,
    steps: &[Step],
) -> Result<(), Fail> {
    for (place, step) in steps.iter().enumerate() {
        match *step {
            Step::On(given, wanted) => expect(rt, alloc, engine, given, wanted)?,
            step => assert!(rt; is_seen(engine, step), "at step {place}"),
        }
    }
    Ok(())
}

// The steps of a node with the usual settings, but for the limits. Some where there is no such node.
fn run(
    rt: &impl Abort,
    alloc: Global,
    hard: u64,
    soft: u64,
    steps: &[Step],
) -> Result<Option<NewRefusal>, Fail> {
    let settings = Settings {
        hard,
        soft,
        ..Settings::usual(local(3001))
    };
    let picker = Picker::new(Box::new(alloc, |addr: Addr, word: u64| {
        addr.key().wrapping_add(word)
    })?);
    let ranked = RankedPicker::new(Box::new(alloc, |addr: Addr, failures: u64, word: u64| {
        failures.min(65_535) * 281_474_976_710_656
            + addr.key().wrapping_add(word) % 281_474_976_710_656
    })?);
    match Engine::new(alloc, settings, picker, ranked) {
        Ok(mut engine) => {
            take_all(rt, alloc, &mut engine, steps)?;
            Ok(None)
        }
        Err(refusal) => Ok(Some(refusal)),
    }
}

const ADMITTED: &[Does] = &[
    Does::Admits(1, 3002),
    Does::Names(1, StateName::UnnegotiatedInbound),
];

const PAUSES: [Step; 7] = [
    Step::On(Given::Accepted(3002), ADMITTED),
    Step::On(
        Given::Accepted(3003),
        &[
            Does::Admits(2, 3003),
            Does::Names(2, StateName::UnnegotiatedInbound),
            Does::Pauses(5000),
        ],
    ),
    Step::On(Given::Accepted(3004), &[Does::TurnsAway(Away::Full)]),
    Step::On(Given::Closed, &[Does::Names(1, StateName::Terminated)]),
    Step::On(
        Given::Now(10_000),
        &[Does::Closes(2), Does::Names(2, StateName::Terminated)],
    ),
    Step::Taken(5),
    Step::At(10_000),
];

const WAITS: [Step; 9] = [
    Step::On(Given::Accepted(3002), ADMITTED),
    Step::Counted(1),
    Step::On(Given::Now(9_999), &[]),
    Step::Stands(true),
    Step::On(
        Given::Now(10_000),
        &[Does::Closes(1), Does::Names(1, StateName::Terminated)],
    ),
    Step::Stands(false),
    Step::Counted(0),
    Step::On(Given::Now(5), &[]),
    Step::At(10_000),
];

const TURNS_AWAY: [Step; 5] = [
    Step::On(Given::Accepted(3001), &[Does::TurnsAway(Away::OwnAddr)]),
    Step::On(Given::Accepted(3002), ADMITTED),
    Step::On(Given::Accepted(3002), &[Does::TurnsAway(Away::Present)]),
    Step::Taken(3),
    Step::At(0),
];

const DIALS: [Step; 7] = [
    Step::On(Given::Local, &[Does::Notes(PeerNote::Known)]),
    Step::On(
        Given::Govern,
        &[Does::Dials, Does::Names(1, StateName::ReservedOutbound)],
    ),
    // It is open, and versions are proposed.
    Step::On(
        Given::Open,
        &[
            Does::Names(1, StateName::UnnegotiatedOutbound),
            Does::Sends(&PROPOSAL),
        ],
    ),
    // It is agreed on and used.
    Step::On(
        Given::Taken,
        &[
            Does::Names(1, StateName::OutboundDupTicking),
            Does::Notes(PeerNote::Warm),
            Does::Sends(&ALIVE),
        ],
    ),
    Step::Warm,
    Step::Established(1),
    // The grace ends before the reply is late.
    Step::Grace(5000),
];

#[test]
fn pauses_above_soft_and_turns_away_at_hard(rt: HostRuntime) -> Result<(), Fail> {
    assert!(rt; run(&rt, rt.alloc(), 2, 1, &PAUSES)?.is_none());
    Ok(())
}

#[test]
fn ends_a_handshake_at_its_deadline(rt: HostRuntime) -> Result<(), Fail> {
    assert!(rt; run(&rt, rt.alloc(), 512, 384, &WAITS)?.is_none());
    Ok(())
}

#[test]
fn turns_away_itself_and_whom_it_has(rt: HostRuntime) -> Result<(), Fail> {
    assert!(rt; run(&rt, rt.alloc(), 512, 384, &TURNS_AWAY)?.is_none());
    Ok(())
}

#[test]
fn dials_a_local_peer_and_uses_the_connection(rt: HostRuntime) -> Result<(), Fail> {
    assert!(rt; run(&rt, rt.alloc(), 512, 384, &DIALS)?.is_none());
    Ok(())
}

#[test]
fn names_the_first_bad_setting(rt: HostRuntime) -> Result<(), Fail> {
    let refusal = run(&rt, rt.alloc(), 2, 3, &[])?;
    assert!(rt; refusal == Some(NewRefusal::BadSetting(Field::Soft)));
    Ok(())
}
