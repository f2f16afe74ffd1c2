ghost use Rattle.std.specs.Prelude.{◌<◌};
ghost use Rattle.local_clients.specs.Rules.{CanHappen};

use local_clients::{ClientAction, ClientCause, ClientEvent, ClientRules, Clients};
use net_base::{FaultKind, NUMBER_MOST, Octets, OutOfMemory};
use std::alloc::Global;
use std::mem;
use std::process::Abort;

mod lines;

const RULES: ClientRules = ClientRules {
    magic: 42,
    limit: 1,
    wait: 10_000,
};

const PROPOSAL: &[u8] =
    b"\0\0\0\0\0\0\0\x11\x82\x00\xa2\x19\x80\x10\x82\x18\x2a\xf4\x19\x80\x11\x82\x18\x2a\xf4";

const ACCEPTANCE: &[u8] = b"\0\0\0\0\x80\0\0\x09\x83\x01\x19\x80\x11\x82\x18\x2a\xf4";

// What happens, or what is seen then. What is said is said by the first client.
#[derive(Clone, Copy)]
enum Step<'a> {
    Joins(&'a [Done<'a>]),
    Says(&'a [u8], &'a [Done<'a>]),
    Now(u64, &'a [Done<'a>]),
    Gone(&'a [Done<'a>]),
    // the version that the first client agreed on
    Opened(Option<u64>),
    Live(u64),
    Taken(u64),
}

// What is done with the first client, or with the next.
#[derive(Clone, Copy)]
enum Done<'a> {
    Admit(u64),
    Turnaway,
    Send(&'a [u8]),
    Open(u64),
    Close(ClientCause),
}

fn is_done(action: &ClientAction, done: Done) -> bool {
    match (action, done) {
        (ClientAction::Admit(id), Done::Admit(admitted)) => *id == admitted,
        (ClientAction::Turnaway, Done::Turnaway) => true,
        (ClientAction::Send(1, octets), Done::Send(bytes)) => octets.as_slice() == bytes,
        (ClientAction::Open(1, agreed), Done::Open(version)) => *agreed == version,
        (ClientAction::Close(1, because), Done::Close(cause)) => *because == cause,
        _ => false,
    }
}

fn are_done(actions: &[ClientAction], wanted: &[Done]) -> bool {
    for (action, done) in actions.iter().zip(wanted) {
        if !is_done(action, *done) {
            return false;
        }
    }
    actions.len() == wanted.len()
}

// Whether this alone is done at an event.
fn does(alloc: Global, clients: &mut Clients, event: ClientEvent, wanted: &[Done]) -> bool
    requires few { clients.old.taken < 1000000 }
    requires event { CanHappen event }
{
    match mem::replace(clients, Clients::new(alloc, RULES)).step(event) {
        Ok((next, actions)) => {
            *clients = next;
            are_done(actions.as_slice(), wanted)
        }
        Err(OutOfMemory) => false,
    }
}

fn happens(alloc: Global, clients: &mut Clients, event: ClientEvent, wanted: &[Done]) -> bool
    requires { CanHappen event }
{
    clients.taken() < 1_000_000 && does(alloc, clients, event, wanted)
}

fn says(alloc: Global, clients: &mut Clients, bytes: &[u8], wanted: &[Done]) -> bool {
    if bytes.is_empty() || bytes.len() > 65_536 {
        return false;
    }
    match Octets::from_slice(alloc, bytes) {
        Ok(octets) => happens(alloc, clients, ClientEvent::Bytes(1, octets), wanted),
        Err(OutOfMemory) => false,
    }
}

fn shows(alloc: Global, clients: &mut Clients, moment: u64, wanted: &[Done]) -> bool {
    moment <= NUMBER_MOST && happens(alloc, clients, ClientEvent::Now(moment), wanted)
}

// Whether a step goes as it says.
fn goes(alloc: Global, clients: &mut Clients, step: Step) -> bool {
    match step {
        Step::Joins(wanted) => happens(alloc, clients, ClientEvent::Joined, wanted),
        Step::Says(bytes, wanted) => says(alloc, clients, bytes, wanted),
        Step::Now(moment, wanted) => shows(alloc, clients, moment, wanted),
        Step::Gone(wanted) => happens(alloc, clients, ClientEvent::Gone(1), wanted),
        Step::Opened(version) => clients.open(1) == version,
        Step::Live(count) => clients.live() == count,
        Step::Taken(count) => clients.taken() == count,
    }
}

// Nobody is connected, and then all steps go as they say.
fn run(rt: &impl Abort, alloc: Global, steps: &[Step]) {
    let mut clients = Clients::new(alloc, RULES);
    for (n, step) in steps.iter().enumerate() {
        assert!(rt; goes(alloc, &mut clients, *step), "at step {n}");
    }
}

const JOINED: Step = Step::Joins(&[Done::Admit(1)]);

const OPENED: Step = Step::Says(PROPOSAL, &[Done::Send(ACCEPTANCE), Done::Open(32785)]);

const OPENS: [Step; 5] = [
    JOINED,
    OPENED,
    Step::Opened(Some(32785)),
    Step::Live(1),
    Step::Taken(2),
];

#[test]
fn a_client_is_let_in_and_opens(rt: HostRuntime) {
    run(&rt, rt.alloc(), &OPENS);
}

const ONE_TOO_MANY: [Step; 3] = [JOINED, OPENED, Step::Joins(&[Done::Turnaway])];

#[test]
fn one_too_many_is_turned_away(rt: HostRuntime) {
    run(&rt, rt.alloc(), &ONE_TOO_MANY);
}

const ASKS: [Step; 4] = [
    JOINED,
    OPENED,
    Step::Says(b"\0\0\0\0\0\x07\0\x03\x82\0\0", &[]),
    Step::Opened(Some(32785)),
];

#[test]
fn what_an_open_client_asks_is_passed_over(rt: HostRuntime) {
    run(&rt, rt.alloc(), &ASKS);
}

const STAYS: [Step; 4] = [
    JOINED,
    OPENED,
    Step::Now(20_000, &[]),
    Step::Opened(Some(32785)),
];

#[test]
fn an_open_client_has_no_deadline(rt: HostRuntime) {
    run(&rt, rt.alloc(), &STAYS);
}

const GOES: [Step; 4] = [JOINED, OPENED, Step::Gone(&[]), Step::Live(0)];

#[test]
fn an_open_client_goes(rt: HostRuntime) {
    run(&rt, rt.alloc(), &GOES);
}

const SILENT: [Step; 4] = [
    JOINED,
    Step::Now(9_999, &[]),
    Step::Live(1),
    Step::Opened(None),
];

#[test]
fn a_silent_client_waits(rt: HostRuntime) {
    run(&rt, rt.alloc(), &SILENT);
}

const LATE: [Step; 4] = [
    JOINED,
    Step::Now(
        10_000,
        &[Done::Close(ClientCause::Fault(FaultKind::HandshakeWait))],
    ),
    Step::Live(0),
    Step::Joins(&[Done::Admit(2)]),
];

#[test]
fn a_silent_client_is_closed_in_time(rt: HostRuntime) {
    run(&rt, rt.alloc(), &LATE);
}

const NO_COMMON: [Step; 2] = [
    JOINED,
    Step::Says(
        b"\0\0\0\0\0\0\0\x06\x82\x00\xa1\x18\x63\x80",
        &[
            Done::Send(b"\0\0\0\0\x80\0\0\x0b\x82\x02\x82\x00\x82\x19\x80\x10\x19\x80\x11"),
            Done::Close(ClientCause::Refused),
        ],
    ),
];

#[test]
fn no_common_version_is_refused(rt: HostRuntime) {
    run(&rt, rt.alloc(), &NO_COMMON);
}

const QUERY: [Step; 2] = [
    JOINED,
    Step::Says(
        b"\0\0\0\0\0\0\0\x0a\x82\x00\xa1\x19\x80\x10\x82\x18\x2a\xf5",
        &[
            Done::Send(
                b"\0\0\0\0\x80\0\0\x11\x82\x03\xa2\x19\x80\x10\x82\x18\x2a\xf4\x19\x80\x11\x82\x18\x2a\xf4",
            ),
            Done::Close(ClientCause::Query),
        ],
    ),
];

#[test]
fn a_query_is_answered(rt: HostRuntime) {
    run(&rt, rt.alloc(), &QUERY);
}

const ANOTHER_NETWORK: [Step; 2] = [
    JOINED,
    Step::Says(
        b"\0\0\0\0\0\0\0\x0a\x82\x00\xa1\x19\x80\x11\x82\x18\x2b\xf4",
        &[
            Done::Send(
                b"\0\0\0\0\x80\0\0\x1d\x82\x02\x83\x02\x19\x80\x11\x75network magic differs",
            ),
            Done::Close(ClientCause::Refused),
        ],
    ),
];

#[test]
fn another_network_is_refused(rt: HostRuntime) {
    run(&rt, rt.alloc(), &ANOTHER_NETWORK);
}

const SAYS_MORE: [Step; 3] = [
    JOINED,
    Step::Says(
        b"\0\0\0\0\0\0\0\x0b\x82\x00\xa1\x19\x80\x11\x82\x18\x2a\xf4\x1c",
        &[
            Done::Send(ACCEPTANCE),
            Done::Open(32785),
            Done::Close(ClientCause::Fault(FaultKind::Protocol)),
        ],
    ),
    Step::Live(0),
];

#[test]
fn bytes_behind_a_proposal_are_a_fault(rt: HostRuntime) {
    run(&rt, rt.alloc(), &SAYS_MORE);
}

const UNKNOWN: &[Done] = &[Done::Close(ClientCause::Fault(FaultKind::UnknownId))];

const PROTOCOL: &[Done] = &[Done::Close(ClientCause::Fault(FaultKind::Protocol))];

const MALFORMED: &[Done] = &[Done::Close(ClientCause::Fault(FaultKind::Malformed))];

const FAULTS: [[Step; 2]; 7] = [
    // a protocol that clients don't have, also with nothing in it, and on the other side
    [JOINED, Step::Says(b"\0\0\0\0\0\x02\0\0", UNKNOWN)],
    [JOINED, Step::Says(b"\0\0\0\0\x80\x02\0\0", UNKNOWN)],
    // the responder's side, also with nothing in it
    [JOINED, Step::Says(b"\0\0\0\0\x80\x07\0\0", PROTOCOL)],
    // another protocol before the handshake is done
    [JOINED, Step::Says(b"\0\0\0\0\0\x07\0\x01\x80", PROTOCOL)],
    // no item, no message, and no proposal
    [JOINED, Step::Says(b"\0\0\0\0\0\0\0\x01\x1c", MALFORMED)],
    [JOINED, Step::Says(b"\0\0\0\0\0\0\0\x01\x80", MALFORMED)],
    [
        JOINED,
        Step::Says(b"\0\0\0\0\0\0\0\x03\x82\x03\xa0", PROTOCOL),
    ],
];

#[test]
fn faults_close_a_client(rt: HostRuntime) {
    for steps in &FAULTS {
        run(&rt, rt.alloc(), steps);
    }
}
