//! A flow over sockets of a script: what it is told, one thing after another, and what it is to ask for next.

use super::sockets::{Happening, accepts, comes, does, happens, local, new_flow, next_ask};
use net_base::{Action, Away, Cid, CloseCause, Event, Octets, OutOfMemory};
use socket_flow::{Ask, Dialed, SocketFlow, Terms};
use std::alloc::Global;
use std::process::Abort;
use std::test::Fail;

// One thing that happens on the sockets, by key, or that the node does, by id.
enum Step {
    RoundBegins(u64),
    PeerWaits,
    NobodyWaits,
    CallersAreGone(u64),
    LacksRoom,
    LacksRoomToDial(usize, u16),
    PeerCame(u16),
    MayBeRead(usize),
    MayBeWritten(usize),
    // These bytes come, and are told of this connection.
    Comes(usize, u64, &'static [u8]),
    // These bytes come, and nothing is told.
    Says(usize, &'static [u8]),
    Takes(usize, usize),
    TakesNoMore(usize),
    Ends(usize),
    Connects(usize),
    Fails(usize),
    Admits(u64),
    TurnsAway,
    Dials(u64, u16),
    Sends(u64, &'static [u8]),
    Closes(u64),
    // This is to be asked for next.
    Asks(Sought),
}

enum Sought {
    Close(usize),
    Connect(usize, u16),
    Check(usize),
    // These bytes wait on the socket.
    Write(usize, &'static [u8]),
    Accept,
    Read(usize),
    Accepted(u16),
    Dialed(u64, bool),
    Closed(u64),
    Now(u64),
    Wait,
}

fn terms(announce: bool) -> Terms {
    Terms {
        own: local(3001),
        announce,
        soft: 64,
        handshake: 100,
        reply: 500,
        tick: 10_000,
        rootttl: 1000,
    }
}

// Whether an event is the one that is sought.
fn is_event(event: &Event, sought: &Sought) -> bool {
    match (event, sought) {
        (Event::Accepted(addr), Sought::Accepted(port)) => *addr == local(*port),
        (Event::Dialed(cid, open), Sought::Dialed(id, is_open)) => cid.0 == *id && open == is_open,
        (Event::Closed(cid), Sought::Closed(id)) => cid.0 == *id,
        (Event::Now(moment), Sought::Now(at)) => moment == at,
        _ => false,
    }
}

fn is_sought(flow: &SocketFlow, ask: &Ask, sought: &Sought) -> bool {
    match (ask, sought) {
        (Ask::Close(key), Sought::Close(at)) => key == at,
        (Ask::Connect { key, addr }, Sought::Connect(at, port)) => {
            key == at && *addr == local(*port)
        }
        (Ask::Check(key), Sought::Check(at)) => key == at,
        (Ask::Write(key), Sought::Write(at, bytes)) => key == at && flow.outgoing(*key) == *bytes,
        (Ask::Accept, Sought::Accept) => true,
        (Ask::Read { key, .. }, Sought::Read(at)) => key == at,
        (Ask::Wait(_), Sought::Wait) => true,
        (Ask::Give(event), sought) => is_event(event, sought),
        _ => false,
    }
}

// What happens on the sockets, if something does.
fn happening(step: &Step) -> Option<Happening> {
    Some(match step {
        Step::RoundBegins(moment) => Happening::RoundBegins(*moment),
        Step::PeerWaits => Happening::PeerWaits,
        Step::NobodyWaits => Happening::NobodyWaits,
        Step::CallersAreGone(count) => Happening::CallersAreGone(*count),
        Step::LacksRoom => Happening::LacksRoom,
        Step::LacksRoomToDial(key, port) => Happening::LacksRoomToDial(*key, local(*port)),
        Step::MayBeRead(key) => Happening::MayBeReady(*key, false),
        Step::MayBeWritten(key) => Happening::MayBeReady(*key, true),
        Step::Takes(key, count) => Happening::Takes(*key, *count),
        Step::TakesNoMore(key) => Happening::TakesNoMore(*key),
        Step::Ends(key) => Happening::Ends(*key),
        Step::Connects(key) => Happening::DialComesTo(*key, Dialed::Connected),
        Step::Fails(key) => Happening::DialComesTo(*key, Dialed::Failed),
        _ => return None,
    })
}

// What the node does, if it does something.
fn action(alloc: Global, step: &Step) -> Result<Option<Action>, OutOfMemory> {
    Ok(match step {
        Step::Admits(id) => Some(Action::Admit(Cid(*id), local(1))),
        Step::TurnsAway => Some(Action::Turnaway(Away::Full)),
        Step::Dials(id, port) => Some(Action::Dial(Cid(*id), local(*port))),
        Step::Sends(id, bytes) => {
            let bytes = Octets::from_slice(alloc, bytes)?;
            Some(Action::Send(Cid(*id), bytes))
        }
        Step::Closes(id) => Some(Action::Close(Cid(*id), CloseCause::Unused)),
        _ => None,
    })
}

// Whether what is told are these bytes of this connection, or nothing where there is none.
fn is_told(event: &Option<Event>, id: Option<u64>, bytes: &[u8]) -> bool {
    match (event, id) {
        (Some(Event::Bytes(cid, told)), Some(id)) => cid.0 == id && told.as_slice() == bytes,
        (None, None) => true,
        _ => false,
    }
}

fn tells(
    flow: &mut SocketFlow,
    key: usize,
    id: Option<u64>,
    bytes: &[u8],
) -> Result<bool, OutOfMemory> {
    let event = comes(flow, key, bytes)?;
    Ok(is_told(&event, id, bytes))
}

// Whether what is asked for next is what is sought.
fn asks(flow: &mut SocketFlow, sought: &Sought) -> Result<bool, OutOfMemory> {
    let ask = next_ask(flow)?;
    Ok(is_sought(flow, &ask, sought))
}

fn acts(alloc: Global, flow: &mut SocketFlow, step: &Step) -> Result<(), OutOfMemory> {
    match action(alloc, step)? {
        Some(action) => does(flow, &action),
        None => Ok(()),
    }
}

// A step is done. Answers whether it came to what it is to come to.
fn holds(alloc: Global, flow: &mut SocketFlow, step: &Step) -> Result<bool, OutOfMemory> {
    match step {
        Step::Asks(sought) => return asks(flow, sought),
        Step::Comes(key, id, bytes) => return tells(flow, *key, Some(*id), bytes),
        Step::Says(key, bytes) => return tells(flow, *key, None, bytes),
        Step::PeerCame(port) => {
            accepts(flow, local(*port))?;
        }
        _ => match happening(step) {
            Some(happening) => happens(flow, happening)?,
            None => acts(alloc, flow, step)?,
        },
    }
    Ok(true)
}

fn take_all(
    rt: &impl Abort,
    alloc: Global,
    flow: &mut SocketFlow,
    steps: &[Step],
) -> Result<(), Fail> {
    for (n, step) in steps.iter().enumerate() {
        assert!(rt; holds(alloc, flow, step)?, "at step {n}");
    }
    Ok(())
}

fn play(rt: &impl Abort, alloc: Global, announce: bool, steps: &[Step]) -> Result<(), Fail> {
    let mut flow = new_flow(alloc, terms(announce))?;
    take_all(rt, alloc, &mut flow, steps)
}

// A peer takes what is sent in parts, then nothing for a while, and then the rest, and says no more: a half-closed end.
const IN_PARTS: &[Step] = &[
    Step::PeerWaits,
    Step::RoundBegins(1),
    Step::Asks(Sought::Now(1)),
    Step::Asks(Sought::Accept),
    Step::PeerCame(1),
    Step::Asks(Sought::Accepted(1)),
    Step::Admits(1),
    Step::Asks(Sought::Accept),
    Step::NobodyWaits,
    Step::Asks(Sought::Wait),
    Step::MayBeRead(0),
    Step::RoundBegins(2),
    Step::Asks(Sought::Now(2)),
    Step::Asks(Sought::Read(0)),
    Step::Comes(0, 1, b"ab"),
    Step::Sends(1, b"hello"),
    Step::Sends(2, b"nobody"),
    Step::Sends(1, b" you"),
    Step::Asks(Sought::Write(0, b"hello you")),
    Step::Takes(0, 3),
    Step::Asks(Sought::Write(0, b"lo you")),
    Step::TakesNoMore(0),
    Step::Sends(1, b"!"),
    Step::Asks(Sought::Wait),
    Step::MayBeWritten(0),
    Step::Asks(Sought::Write(0, b"lo you!")),
    Step::Takes(0, 7),
    Step::Asks(Sought::Wait),
    Step::Ends(0),
    Step::Ends(0),
    Step::Sends(1, b"late"),
    Step::Asks(Sought::Close(0)),
    Step::Asks(Sought::Closed(1)),
    Step::MayBeRead(0),
    Step::RoundBegins(3),
    Step::Asks(Sought::Now(3)),
    Step::Asks(Sought::Wait),
];

// One dial opens, announces itself and is closed with its last bytes; another fails.
const DIALS: &[Step] = &[
    Step::Dials(5, 7),
    Step::Dials(6, 8),
    Step::Sends(5, b"hi"),
    Step::Asks(Sought::Connect(0, 7)),
    Step::Asks(Sought::Connect(1, 8)),
    Step::Asks(Sought::Wait),
    Step::MayBeWritten(1),
    Step::MayBeWritten(0),
    Step::RoundBegins(1),
    Step::Asks(Sought::Now(1)),
    Step::Asks(Sought::Check(1)),
    Step::Fails(1),
    Step::Fails(1),
    Step::Connects(1),
    Step::Asks(Sought::Close(1)),
    Step::Asks(Sought::Dialed(6, false)),
    Step::Asks(Sought::Check(0)),
    Step::Connects(0),
    Step::Connects(0),
    Step::Fails(0),
    Step::Asks(Sought::Write(0, b"\x04\x7f\0\0\x01\x0b\xb9hi")),
    Step::Takes(0, 9),
    Step::Asks(Sought::Dialed(5, true)),
    Step::Asks(Sought::Wait),
    Step::Sends(5, b"bye"),
    Step::Closes(5),
    Step::Sends(5, b"late"),
    Step::Asks(Sought::Write(0, b"bye")),
    Step::Takes(0, 1),
    Step::Asks(Sought::Write(0, b"ye")),
    Step::Takes(0, 2),
    Step::Asks(Sought::Close(0)),
    Step::Asks(Sought::Wait),
];

// Who doesn't say all of its address in time is closed, and who says another thing; who says it is told of.
const ANNOUNCES: &[Step] = &[
    Step::PeerWaits,
    Step::RoundBegins(1),
    Step::Asks(Sought::Now(1)),
    Step::Asks(Sought::Accept),
    Step::PeerCame(1),
    Step::Asks(Sought::Read(0)),
    Step::Says(0, b"\x04\x7f"),
    Step::Asks(Sought::Read(0)),
    Step::Asks(Sought::Accept),
    Step::PeerCame(2),
    Step::Asks(Sought::Read(1)),
    Step::Says(1, b"\x05"),
    Step::Asks(Sought::Close(1)),
    Step::Asks(Sought::Accept),
    Step::PeerCame(3),
    Step::Asks(Sought::Read(2)),
    Step::Says(2, b"\x04\x7f\0\0\x01\0\x09"),
    Step::Asks(Sought::Accepted(9)),
    Step::TurnsAway,
    Step::Asks(Sought::Close(2)),
    Step::Asks(Sought::Accept),
    Step::NobodyWaits,
    Step::Asks(Sought::Wait),
    Step::RoundBegins(100),
    Step::Asks(Sought::Now(100)),
    Step::Asks(Sought::Wait),
    Step::RoundBegins(101),
    Step::Asks(Sought::Close(0)),
    Step::Asks(Sought::Now(101)),
    Step::Asks(Sought::Wait),
];

// A peer that takes nothing of what waits for `reply` milliseconds is ended.
const TAKES_NOTHING: &[Step] = &[
    Step::PeerWaits,
    Step::RoundBegins(1),
    Step::Asks(Sought::Now(1)),
    Step::Asks(Sought::Accept),
    Step::PeerCame(1),
    Step::Asks(Sought::Accepted(1)),
    Step::Admits(1),
    Step::Sends(1, b"abc"),
    Step::Asks(Sought::Write(0, b"abc")),
    Step::TakesNoMore(0),
    Step::NobodyWaits,
    Step::Asks(Sought::Wait),
    Step::RoundBegins(500),
    Step::Asks(Sought::Now(500)),
    Step::Asks(Sought::Read(0)),
    Step::Asks(Sought::Wait),
    Step::RoundBegins(501),
    Step::Asks(Sought::Close(0)),
    Step::Asks(Sought::Now(501)),
    Step::Asks(Sought::Closed(1)),
    Step::Asks(Sought::Wait),
];

// One that took a byte since it was looked at last is looked at once more.
const TAKES_A_BYTE: &[Step] = &[
    Step::PeerWaits,
    Step::RoundBegins(1),
    Step::Asks(Sought::Now(1)),
    Step::Asks(Sought::Accept),
    Step::PeerCame(1),
    Step::Asks(Sought::Accepted(1)),
    Step::Admits(1),
    Step::Sends(1, b"abc"),
    Step::Asks(Sought::Write(0, b"abc")),
    Step::Takes(0, 1),
    Step::Asks(Sought::Write(0, b"bc")),
    Step::TakesNoMore(0),
    Step::NobodyWaits,
    Step::Asks(Sought::Wait),
    Step::RoundBegins(501),
    Step::Asks(Sought::Now(501)),
    Step::Asks(Sought::Read(0)),
    Step::Asks(Sought::Wait),
    Step::RoundBegins(1000),
    Step::Asks(Sought::Now(1000)),
    Step::Asks(Sought::Wait),
    Step::RoundBegins(1001),
    Step::Asks(Sought::Close(0)),
    Step::Asks(Sought::Now(1001)),
    Step::Asks(Sought::Closed(1)),
    Step::Asks(Sought::Wait),
];

// Two peers wait: the node is told of one after the other. The first is closed, since nothing was said of it before the second.
const UNANSWERED: &[Step] = &[
    Step::PeerWaits,
    Step::RoundBegins(1),
    Step::Asks(Sought::Now(1)),
    Step::Asks(Sought::Accept),
    Step::PeerCame(1),
    Step::PeerCame(2),
    Step::Asks(Sought::Accepted(1)),
    Step::Asks(Sought::Accepted(2)),
    Step::TurnsAway,
    Step::Asks(Sought::Close(0)),
    Step::Asks(Sought::Close(1)),
    Step::Asks(Sought::Accept),
    Step::NobodyWaits,
    Step::Asks(Sought::Wait),
];

// Connections have their turns in the order in which they became ready, and who has had its turn goes behind.
const TURNS: &[Step] = &[
    Step::PeerWaits,
    Step::RoundBegins(1),
    Step::Asks(Sought::Now(1)),
    Step::Asks(Sought::Accept),
    Step::PeerCame(1),
    Step::Asks(Sought::Accepted(1)),
    Step::Admits(1),
    Step::Asks(Sought::Accept),
    Step::PeerCame(2),
    Step::Asks(Sought::Accepted(2)),
    Step::Admits(2),
    Step::Asks(Sought::Accept),
    Step::NobodyWaits,
    Step::Asks(Sought::Wait),
    Step::RoundBegins(2),
    Step::Asks(Sought::Now(2)),
    Step::Asks(Sought::Read(0)),
    Step::Comes(0, 1, b"a"),
    Step::Asks(Sought::Read(1)),
    Step::Comes(1, 2, b"b"),
    Step::Asks(Sought::Wait),
    Step::RoundBegins(3),
    Step::Asks(Sought::Now(3)),
    Step::Asks(Sought::Read(0)),
    Step::Asks(Sought::Read(1)),
    Step::Comes(1, 2, b"c"),
    Step::Asks(Sought::Wait),
    Step::MayBeRead(0),
    Step::RoundBegins(4),
    Step::Asks(Sought::Now(4)),
    Step::Asks(Sought::Read(1)),
    Step::Asks(Sought::Read(0)),
    Step::Asks(Sought::Wait),
];

// At most 64 peers are accepted in a round, and those that are gone again count.
const GONE_AGAIN: &[Step] = &[
    Step::PeerWaits,
    Step::RoundBegins(1),
    Step::Asks(Sought::Now(1)),
    Step::Asks(Sought::Accept),
    Step::CallersAreGone(63),
    Step::Asks(Sought::Accept),
    Step::CallersAreGone(1),
    Step::Asks(Sought::Wait),
    Step::RoundBegins(2),
    Step::Asks(Sought::Now(2)),
    Step::Asks(Sought::Accept),
];

// The system has no room for a tenth socket: for a minute there is room for one, since eight are left for dials, and accepting
// rests for 100 milliseconds at a time.
const NO_ROOM: &[Step] = &[
    Step::PeerWaits,
    Step::RoundBegins(1),
    Step::Asks(Sought::Now(1)),
    Step::Asks(Sought::Accept),
    Step::PeerCame(1),
    Step::PeerCame(2),
    Step::PeerCame(3),
    Step::PeerCame(4),
    Step::PeerCame(5),
    Step::PeerCame(6),
    Step::PeerCame(7),
    Step::PeerCame(8),
    Step::PeerCame(9),
    Step::LacksRoom,
    Step::Asks(Sought::Accepted(1)),
    Step::TurnsAway,
    Step::Asks(Sought::Close(0)),
    Step::Asks(Sought::Accepted(2)),
    Step::TurnsAway,
    Step::Asks(Sought::Close(1)),
    Step::Asks(Sought::Accepted(3)),
    Step::TurnsAway,
    Step::Asks(Sought::Close(2)),
    Step::Asks(Sought::Accepted(4)),
    Step::TurnsAway,
    Step::Asks(Sought::Close(3)),
    Step::Asks(Sought::Accepted(5)),
    Step::TurnsAway,
    Step::Asks(Sought::Close(4)),
    Step::Asks(Sought::Accepted(6)),
    Step::TurnsAway,
    Step::Asks(Sought::Close(5)),
    Step::Asks(Sought::Accepted(7)),
    Step::TurnsAway,
    Step::Asks(Sought::Close(6)),
    Step::Asks(Sought::Accepted(8)),
    Step::TurnsAway,
    Step::Asks(Sought::Close(7)),
    Step::Asks(Sought::Accepted(9)),
    Step::Admits(1),
    Step::Asks(Sought::Wait),
    Step::RoundBegins(100),
    Step::Asks(Sought::Now(100)),
    Step::Asks(Sought::Read(8)),
    Step::Asks(Sought::Wait),
    Step::RoundBegins(101),
    Step::Asks(Sought::Now(101)),
    Step::Asks(Sought::Wait),
    Step::Closes(1),
    Step::Asks(Sought::Close(8)),
    Step::Asks(Sought::Wait),
    Step::RoundBegins(200),
    Step::Asks(Sought::Now(200)),
    Step::Asks(Sought::Wait),
    Step::RoundBegins(201),
    Step::Asks(Sought::Now(201)),
    Step::Asks(Sought::Accept),
];

// The oldest of those that announce themselves goes, where there is one. The minute is over at the moment 60,001.
const NO_ROOM_BESIDE_A_STRANGER: &[Step] = &[
    Step::PeerWaits,
    Step::RoundBegins(1),
    Step::Asks(Sought::Now(1)),
    Step::Asks(Sought::Accept),
    Step::PeerCame(1),
    Step::Asks(Sought::Read(0)),
    Step::Asks(Sought::Accept),
    Step::LacksRoom,
    Step::Asks(Sought::Close(0)),
    Step::Asks(Sought::Wait),
    Step::RoundBegins(9_999),
    Step::Asks(Sought::Now(9_999)),
    Step::Asks(Sought::Wait),
    Step::RoundBegins(60_001),
    Step::Asks(Sought::Now(60_001)),
    Step::Asks(Sought::Accept),
];

// A dial takes the room of one that announces itself, and fails where there is none.
const NO_ROOM_TO_DIAL: &[Step] = &[
    Step::PeerWaits,
    Step::RoundBegins(1),
    Step::Asks(Sought::Now(1)),
    Step::Asks(Sought::Accept),
    Step::PeerCame(1),
    Step::NobodyWaits,
    Step::Dials(5, 7),
    Step::Asks(Sought::Connect(1, 7)),
    Step::LacksRoomToDial(1, 7),
    Step::Asks(Sought::Close(0)),
    Step::Asks(Sought::Connect(1, 7)),
    Step::LacksRoomToDial(1, 7),
    Step::Asks(Sought::Close(1)),
    Step::Asks(Sought::Dialed(5, false)),
    Step::Asks(Sought::Wait),
];

#[test]
fn sockets_of_a_script_are_asked_for_as_it_says(rt: HostRuntime) -> Result<(), Fail> {
    for (announce, steps) in [
        (false, IN_PARTS),
        (true, DIALS),
        (true, ANNOUNCES),
        (false, TAKES_NOTHING),
        (false, TAKES_A_BYTE),
        (false, UNANSWERED),
        (false, TURNS),
        (false, GONE_AGAIN),
        (false, NO_ROOM),
        (true, NO_ROOM_BESIDE_A_STRANGER),
        (true, NO_ROOM_TO_DIAL),
    ] {
        play(&rt, rt.alloc(), announce, steps)?;
    }
    Ok(())
}
