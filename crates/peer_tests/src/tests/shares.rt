use super::steps::addresses::{A1, A2, A3, A4, A5, A6, A7, A10, local, locals};
use super::steps::book::{BIG, ORDINARY, Step as BookStep};
use super::steps::scene::{GROUP, Members, NOBODY, Scene, Setting};
use net_base::{Addr, Ip, OutOfMemory};
use peer_book::Added;
use share_rounds::*;
use std::alloc::Global;
use std::process::Abort;
use warm_messages::PeerItems;

/// What is to be seen in a scene.
enum Step {
    /// These are told to one that asks for so many.
    Tells(Addr, u64, &'static [Addr]),
    /// These are kept for every one that asks.
    Keeps(&'static [Addr]),
    /// Of those that are kept these are told to one that asks for so many.
    TellsOfKept(Addr, u64, &'static [Addr]),
    /// Of an answer these are taken, where so many ordinary peers are to be known, in a version of traces.
    Takes(&'static [Addr], u64, u64, &'static [Addr]),
}

use Step::{Keeps, Takes, Tells, TellsOfKept};

fn tells(
    alloc: Global,
    scene: &Scene,
    asker: Addr,
    number: u64,
    want: &[Addr],
) -> Result<bool, OutOfMemory> {
    let told = served(
        alloc,
        &scene.book,
        &scene.groups,
        &scene.roots,
        asker,
        number,
    )?;
    Ok(told.as_slice() == want)
}

fn keeps(alloc: Global, scene: &Scene, want: &[Addr]) -> Result<bool, OutOfMemory> {
    let kept = tellable(alloc, &scene.book, &scene.groups, &scene.roots)?;
    Ok(kept.as_slice() == want)
}

fn tells_of_kept(
    alloc: Global,
    scene: &Scene,
    asker: Addr,
    number: u64,
    want: &[Addr],
) -> Result<bool, OutOfMemory> {
    let kept = tellable(alloc, &scene.book, &scene.groups, &scene.roots)?;
    let told = served_among(alloc, kept.as_slice(), asker, number)?;
    Ok(told.as_slice() == want)
}

fn takes(
    alloc: Global,
    scene: &Scene,
    answer: &[Addr],
    target: u64,
    version: u64,
    want: &[Addr],
) -> Result<bool, OutOfMemory> {
    let answer = PeerItems::from_slice(alloc, answer)?;
    let taken = fresh(alloc, &scene.book, A1, &answer, target, version)?;
    Ok(taken.as_slice() == want)
}

fn take(alloc: Global, scene: &Scene, step: &Step) -> Result<bool, OutOfMemory> {
    match step {
        Tells(asker, number, want) => tells(alloc, scene, *asker, *number, want),
        Keeps(want) => keeps(alloc, scene, want),
        TellsOfKept(asker, number, want) => tells_of_kept(alloc, scene, *asker, *number, want),
        Takes(answer, target, version, want) => {
            takes(alloc, scene, answer, *target, *version, want)
        }
    }
}

fn take_all(
    rt: &impl Abort,
    alloc: Global,
    scene: &Scene,
    steps: &[Step],
) -> Result<(), OutOfMemory> {
    for (number, step) in steps.iter().enumerate() {
        assert!(rt; take(alloc, scene, step)?, "at step {number}");
    }
    Ok(())
}

fn take_all_in(
    rt: &impl Abort,
    alloc: Global,
    scene: &mut Scene,
    setting: &Setting,
    steps: &[Step],
) -> Result<(), OutOfMemory> {
    scene.set(rt, alloc, setting)?;
    take_all(rt, alloc, scene, steps)
}

fn run(
    rt: &impl Abort,
    alloc: Global,
    setting: &Setting,
    steps: &[Step],
) -> Result<(), OutOfMemory> {
    let mut scene = Scene::new(alloc);
    take_all_in(rt, alloc, &mut scene, setting, steps)
}

// ::1 with a port.
macro_rules! local6 {
    ($port:literal) => {
        Addr {
            ip: Ip::V6(1),
            port: $port,
        }
    };
}

// Who is known: the one that asks, a public root, a local peer that is not advertised, one that is and is a public root
// too, and others.
const VARIOUS: Setting = Setting {
    book: &[
        BookStep::Enter(
            ORDINARY,
            locals![
                3002, 3003, 3004, 3005, 3019, 3018, 3017, 3016, 3015, 3014, 3013, 3012, 3011
            ],
        ),
        BookStep::Enter(BIG, &[local6!(1), A10]),
    ],
    groups: &[
        Members {
            addrs: &[A4],
            ..GROUP
        },
        Members {
            addrs: &[A5],
            advertise: true,
            ..GROUP
        },
    ],
    publics: &[A3, A5],
};

const NINE: &[Addr] = locals![3005, 3010, 3011, 3012, 3013, 3014, 3015, 3016, 3017];

const TEN: &[Addr] = locals![3005, 3010, 3011, 3012, 3013, 3014, 3015, 3016, 3017, 3018];

const TOLD: [Step; 8] = [
    Tells(A2, 0, &[]),
    Tells(A2, 1, &[A5]),
    Tells(A2, 2, &[A5, A10]),
    Tells(A2, 9, NINE),
    Tells(A2, 10, TEN),
    Tells(A2, 11, TEN),
    Tells(A2, u64::MAX, TEN),
    // the first that may be told is the one that asks
    Tells(A5, 1, &[A2]),
];

#[test]
fn what_is_told(rt: HostRuntime) -> Result<(), OutOfMemory> {
    run(&rt, rt.alloc(), &VARIOUS, &TOLD)
}

// After the handshake with one inbound peer and two peers of one advertised group.
const ADVERTISED: Setting = Setting {
    book: &[BookStep::Enter(ORDINARY, &[A2, A3])],
    groups: &[
        GROUP,
        Members {
            addrs: &[A2, A3],
            advertise: true,
            ..GROUP
        },
    ],
    publics: &[],
};

const TOLD_TO_ONE: [Step; 1] = [Tells(A2, 5, &[A3])];

#[test]
fn the_one_that_asks_is_left_out(rt: HostRuntime) -> Result<(), OutOfMemory> {
    run(&rt, rt.alloc(), &ADVERTISED, &TOLD_TO_ONE)
}

// Of twelve that may be told eleven are kept, and ten of these are told to one of them and to a stranger.
const TWELVE: Setting = Setting {
    book: &[BookStep::Enter(ORDINARY, locals![1, 2, 3, 4, 5, 6, 7, 8, 9, 10, 11, 12])],
    ..NOBODY
};

const KEPT: [Step; 4] = [
    Keeps(locals![1, 2, 3, 4, 5, 6, 7, 8, 9, 10, 11]),
    TellsOfKept(local!(11), 10, locals![1, 2, 3, 4, 5, 6, 7, 8, 9, 10]),
    TellsOfKept(local!(1), 20, locals![2, 3, 4, 5, 6, 7, 8, 9, 10, 11]),
    TellsOfKept(local!(12), 10, locals![1, 2, 3, 4, 5, 6, 7, 8, 9, 10]),
];

#[test]
fn ten_are_left_whoever_asks(rt: HostRuntime) -> Result<(), OutOfMemory> {
    run(&rt, rt.alloc(), &TWELVE, &KEPT)
}

const TWO: Setting = Setting {
    book: &[
        BookStep::Adds(ORDINARY, A2, Added::New),
        BookStep::Adds(BIG, A7, Added::New),
    ],
    ..NOBODY
};

// The own one, one twice, an IPv6 one, and two that are known.
const ANSWER: &[Addr] = &[A1, A6, A6, local6!(3001), A2, A7, A5];

const ALL: &[Addr] = &[A6, local6!(3001), A5];

const IPV4: &[Addr] = &[A6, A5];

const TAKEN: [Step; 8] = [
    Takes(ANSWER, 10_000, 2, ALL),
    Takes(ANSWER, 4, 2, ALL),
    Takes(ANSWER, 3, 2, &[A6, local6!(3001)]),
    Takes(ANSWER, 2, 2, &[A6]),
    Takes(ANSWER, 1, 2, &[]),
    Takes(ANSWER, 0, 2, &[]),
    Takes(ANSWER, 10_000, 1, IPV4),
    Takes(ANSWER, 3, 1, IPV4),
];

#[test]
fn what_is_taken(rt: HostRuntime) -> Result<(), OutOfMemory> {
    run(&rt, rt.alloc(), &TWO, &TAKEN)
}

const NEARLY_FULL: Setting = Setting {
    book: &[BookStep::Fills(BIG)],
    ..NOBODY
};

const FULL: Setting = Setting {
    book: &[
        BookStep::Fills(BIG),
        BookStep::Adds(BIG, local6!(20_000), Added::New),
    ],
    ..NOBODY
};

const LAST_TAKEN: [Step; 1] = [Takes(&[A2, A3], 10_000, 1, &[A2])];

const NONE_TAKEN: [Step; 1] = [Takes(&[A2, A3], 10_000, 1, &[])];

#[test]
fn a_full_book_takes_none(rt: HostRuntime) -> Result<(), OutOfMemory> {
    run(&rt, rt.alloc(), &NEARLY_FULL, &LAST_TAKEN)?;
    run(&rt, rt.alloc(), &FULL, &NONE_TAKEN)
}
