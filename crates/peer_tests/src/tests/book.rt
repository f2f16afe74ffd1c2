use super::steps::addresses::{A1, A2, A3, A4, A5, A7, A8};
use super::steps::book::Step::{
    Adds, AddsSome, AllLeave, Becomes, BecomesOrdinary, Counts, Enter, Fails, Fills, Has, IsAbsent,
    IsAsked, IsFirst, IsThere, Leaves, Lists, Succeeds,
};
use super::steps::book::{BIG, ORDINARY, Step, run};
use net_base::{OutOfMemory, Peer, Temp};
use peer_book::{Added, MOST_PEERS};

/// A big ledger peer that came in, and to which nothing has happened.
const NEW: Peer = Peer {
    addr: A1,
    big: true,
    temp: Temp::Cold,
    failures: 0,
    not_before: 0,
    share_next: 0,
};

const CONNECTED: [Step; 6] = [
    Adds(ORDINARY, A2, Added::New),
    Adds(ORDINARY, A2, Added::Present),
    Succeeds(A2),
    Counts([1, 1, 0], [0, 0, 0]),
    Lists(Temp::Warm, &[A2]),
    Lists(Temp::Cold, &[]),
];

#[test]
fn a_peer_that_succeeds_is_listed_as_warm(rt: HostRuntime) -> Result<(), OutOfMemory> {
    run(&rt, rt.alloc(), &CONNECTED)
}

const FAILED: [Step; 8] = [
    Adds(ORDINARY, A2, Added::New),
    Fails(A2, 7, [1, 5007]),
    Fails(A2, 7, [2, 10_007]),
    Fails(A2, 7, [3, 20_007]),
    Fails(A2, 7, [4, 40_007]),
    Fails(A2, 7, [5, 80_007]),
    Fails(A2, 7, [6, 160_007]),
    Fails(A2, 7, [7, 160_007]),
];

#[test]
fn failures_and_the_delays_after_them(rt: HostRuntime) -> Result<(), OutOfMemory> {
    run(&rt, rt.alloc(), &FAILED)
}

const HOT: Peer = Peer {
    addr: A3,
    big: false,
    temp: Temp::Hot,
    share_next: 900_000,
    ..NEW
};

const HOT_AND_ORDINARY: [Step; 9] = [
    Adds(ORDINARY, A4, Added::New),
    Adds(BIG, A3, Added::New),
    Becomes(A3, Temp::Hot),
    IsAsked(A3, 900_000),
    Counts([1, 0, 0], [1, 1, 1]),
    BecomesOrdinary(A3),
    Counts([2, 1, 1], [0, 0, 0]),
    IsThere(HOT),
    IsFirst(HOT),
];

#[test]
fn a_big_peer_becomes_hot_and_then_ordinary(rt: HostRuntime) -> Result<(), OutOfMemory> {
    run(&rt, rt.alloc(), &HOT_AND_ORDINARY)
}

const FORGOTTEN: [Step; 7] = [
    Adds(ORDINARY, A3, Added::New),
    Adds(ORDINARY, A2, Added::New),
    Lists(Temp::Cold, &[A2, A3]),
    Leaves(A2),
    IsAbsent(A2),
    Lists(Temp::Cold, &[A3]),
    Counts([1, 0, 0], [0, 0, 0]),
];

#[test]
fn a_forgotten_peer_is_gone(rt: HostRuntime) -> Result<(), OutOfMemory> {
    run(&rt, rt.alloc(), &FORGOTTEN)
}

const SEVERAL_FORGOTTEN: [Step; 5] = [
    Enter(ORDINARY, &[A5, A1, A3]),
    Enter(BIG, &[A4, A2]),
    // one of nobody, and one twice
    AllLeave(&[A3, A8, A4, A3]),
    Lists(Temp::Cold, &[A1, A2, A5]),
    Counts([2, 0, 0], [1, 0, 0]),
];

#[test]
fn several_are_forgotten_at_once(rt: HostRuntime) -> Result<(), OutOfMemory> {
    run(&rt, rt.alloc(), &SEVERAL_FORGOTTEN)
}

const ONE_AFTER_ANOTHER: [Step; 6] = [
    Adds(ORDINARY, A3, Added::New),
    AddsSome(ORDINARY, &[A5, A3, A2, A5, A4], MOST_PEERS, &[A5, A2, A4]),
    // two big ledger peers are enough
    AddsSome(BIG, &[A7, A2, A1, A8], 2, &[A7, A1]),
    Lists(Temp::Cold, &[A1, A2, A3, A4, A5, A7]),
    Counts([4, 0, 0], [2, 0, 0]),
    IsThere(NEW),
];

#[test]
fn addresses_come_in_one_after_another(rt: HostRuntime) -> Result<(), OutOfMemory> {
    run(&rt, rt.alloc(), &ONE_AFTER_ANOTHER)
}

const WARM_AMONG_OTHERS: [Step; 4] = [
    Enter(ORDINARY, &[A2, A1]),
    Becomes(A2, Temp::Warm),
    Lists(Temp::Warm, &[A2]),
    Lists(Temp::Cold, &[A1]),
];

#[test]
fn one_that_came_with_others_becomes_warm(rt: HostRuntime) -> Result<(), OutOfMemory> {
    run(&rt, rt.alloc(), &WARM_AMONG_OTHERS)
}

const FULL: [Step; 7] = [
    Fills(ORDINARY),
    AddsSome(BIG, &[A4, A4, A3], MOST_PEERS, &[A4]),
    Adds(ORDINARY, A2, Added::Full),
    Adds(BIG, A2, Added::Full),
    Has(20_000),
    Counts([19_999, 0, 0], [1, 0, 0]),
    IsAbsent(A2),
];

#[test]
fn a_full_book_takes_no_more(rt: HostRuntime) -> Result<(), OutOfMemory> {
    run(&rt, rt.alloc(), &FULL)
}
