ghost use Rattle.std.specs.Prelude.{◌≡◌, false};

use hs_decide::Role;
use hs_message::VersionInfo;
use net_base::{Agreed, OutOfMemory};
use pair_net::*;
use std::alloc::Global;
use std::mem;
use std::process::Abort;

mod lines;

const DUPLEX: VersionInfo = VersionInfo {
    magic: 42,
    initiator_only: false,
    sharing: true,
    query: false,
};

const DIALS_ONLY: VersionInfo = VersionInfo {
    magic: 42,
    initiator_only: true,
    sharing: true,
    query: false,
};

const DUPLEX_PROPOSAL: &[u8] =
    b"\0\0\0\0\0\0\0\x11\x82\x00\xa2\x0d\x84\x18\x2a\xf4\x01\xf4\x0e\x84\x18\x2a\xf4\x01\xf4";

const DIALS_ONLY_PROPOSAL: &[u8] =
    b"\0\0\0\0\0\0\0\x11\x82\x00\xa2\x0d\x84\x18\x2a\xf5\x01\xf4\x0e\x84\x18\x2a\xf5\x01\xf4";

const ACCEPTANCE: &[u8] = b"\0\0\0\0\x80\0\0\x09\x83\x01\x0e\x84\x18\x2a\xf4\x01\xf4";

const AGREED: Agreed = Agreed {
    version: 14,
    initiator_only: false,
    sharing: true,
};

// A step and what is told of it, or what is seen behind the steps.
#[derive(Clone, Copy)]
enum Turn<'a> {
    Takes(PairStep, &'a [Told<'a>]),
    Stands(End, EndPhase),
    IsFresh(End),
}

#[derive(Clone, Copy)]
enum Told<'a> {
    Waits(End, Role),
    Sent(End, &'a [u8]),
    Agrees(End, Agreed),
    Ends(End, EndCause),
}

fn is_told(note: &PairNote, told: Told) -> bool {
    match (note, told) {
        (PairNote::Waits(end, role), Told::Waits(of, wanted)) => *end == of && *role == wanted,
        (PairNote::Sent(end, bytes), Told::Sent(of, wanted)) => {
            *end == of && bytes.as_slice() == wanted
        }
        (PairNote::Agrees(end, agreed), Told::Agrees(of, wanted)) => {
            *end == of && *agreed == wanted
        }
        (PairNote::Ends(end, cause), Told::Ends(of, wanted)) => *end == of && *cause == wanted,
        _ => false,
    }
}

fn are_told(notes: &[PairNote], wanted: &[Told]) -> bool {
    for (note, told) in notes.iter().zip(wanted) {
        if !is_told(note, *told) {
            return false;
        }
    }
    notes.len() == wanted.len()
}

// Whether these notes alone are told of a step.
fn takes(alloc: Global, pair: &mut Pair, step: PairStep, wanted: &[Told]) -> bool {
    match mem::replace(pair, Pair::new(alloc, DUPLEX, DUPLEX)).step(step) {
        Ok((next, notes)) => {
            *pair = next;
            are_told(notes.as_slice(), wanted)
        }
        Err(OutOfMemory) => false,
    }
}

fn goes(alloc: Global, pair: &mut Pair, turn: Turn) -> bool {
    match turn {
        Turn::Takes(step, wanted) => takes(alloc, pair, step, wanted),
        Turn::Stands(end, phase) => pair.phase(end) == phase,
        Turn::IsFresh(end) => pair.phase(end).is_fresh(),
    }
}

// All turns of a pair whose right end says this of itself go as they say.
fn run(rt: &impl Abort, alloc: Global, right: VersionInfo, turns: &[Turn])
    requires { right.query ≡ false }
{
    let mut pair = Pair::new(alloc, DUPLEX, right);
    for (n, turn) in turns.iter().enumerate() {
        assert!(rt; goes(alloc, &mut pair, *turn), "at turn {n}");
    }
}

const MEETING: [Turn; 5] = [
    // the left end dials, and the right one waits
    Turn::Takes(
        PairStep::Meet(End::Left),
        &[
            Told::Waits(End::Left, Role::Dialer),
            Told::Sent(End::Left, DUPLEX_PROPOSAL),
            Told::Waits(End::Right, Role::Acceptor),
        ],
    ),
    Turn::Takes(
        PairStep::Deliver(End::Right, 25),
        &[
            Told::Sent(End::Right, ACCEPTANCE),
            Told::Agrees(End::Right, AGREED),
        ],
    ),
    Turn::Takes(
        PairStep::Deliver(End::Left, 17),
        &[Told::Agrees(End::Left, AGREED)],
    ),
    Turn::Stands(End::Left, EndPhase::Agreed(AGREED)),
    Turn::Stands(End::Right, EndPhase::Agreed(AGREED)),
];

#[test]
fn a_meeting_agrees(rt: HostRuntime) {
    run(&rt, rt.alloc(), DUPLEX, &MEETING);
}

const CROSSING: [Turn; 4] = [
    // both ends dial
    Turn::Takes(
        PairStep::Cross,
        &[
            Told::Waits(End::Left, Role::Dialer),
            Told::Sent(End::Left, DUPLEX_PROPOSAL),
            Told::Waits(End::Right, Role::Dialer),
            Told::Sent(End::Right, DIALS_ONLY_PROPOSAL),
        ],
    ),
    Turn::Takes(
        PairStep::Deliver(End::Left, 25),
        &[Told::Ends(End::Left, EndCause::Refused)],
    ),
    Turn::Takes(
        PairStep::Deliver(End::Right, 100),
        &[Told::Ends(End::Right, EndCause::Refused)],
    ),
    Turn::Stands(End::Left, EndPhase::Ended(EndCause::Refused)),
];

#[test]
fn a_crossing_with_an_initiator_only_is_refused(rt: HostRuntime) {
    run(&rt, rt.alloc(), DIALS_ONLY, &CROSSING);
}

const ENDING: [Turn; 6] = [
    Turn::Takes(PairStep::Timeout(End::Left), &[]),
    Turn::IsFresh(End::Left),
    Turn::Takes(
        PairStep::Close(End::Left),
        &[Told::Ends(End::Left, EndCause::Closed)],
    ),
    // an end that was closed bars meetings and crossings
    Turn::Takes(PairStep::Meet(End::Right), &[]),
    Turn::Takes(PairStep::Cross, &[]),
    Turn::IsFresh(End::Right),
];

#[test]
fn ends_end(rt: HostRuntime) {
    assert!(rt; End::Left.other() == End::Right);
    run(&rt, rt.alloc(), DUPLEX, &ENDING);
}
