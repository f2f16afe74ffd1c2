use net_base::{Cid, Kind};
use std::alloc::Global;
use std::process::Abort;
use std::test::Fail;
use timer_queue::{Moments, TimerQueue, place_from};

type Timer = (u64, Cid, Kind);

// What is done to a queue, or is to be seen of it.
#[derive(Clone, Copy)]
enum Step {
    Enrolls(Cid),
    Leaves(Cid),
    Sets(Timer),
    Clears(Cid, Kind),
    // All six at once.
    Puts(Cid, Moments),
    // This timer is the first of all.
    Leads(Option<Timer>),
    // This timer fires at a moment.
    Fires(u64, Option<Timer>),
    Enrolled(Cid, bool),
    Grace(Cid, Option<u64>),
}

const ONE: Cid = Cid(1);

const TWO: Cid = Cid(2);

fn set(rt: &impl Abort, queue: &mut TimerQueue, (at, cid, kind): Timer) {
    assert!(rt; queue.is_enrolled(cid));
    queue.set(cid, kind, at);
}

fn put(rt: &impl Abort, queue: &mut TimerQueue, cid: Cid, moments: &Moments) {
    assert!(rt; queue.is_enrolled(cid));
    queue.put(cid, moments);
}

fn take(rt: &impl Abort, queue: &mut TimerQueue, step: Step) -> Result<(), Fail> {
    match step {
        Step::Enrolls(cid) => queue.enroll(cid)?,
        Step::Leaves(cid) => queue.leave(cid),
        Step::Sets(timer) => set(rt, queue, timer),
        Step::Clears(cid, kind) => queue.clear(cid, kind),
        Step::Puts(cid, moments) => put(rt, queue, cid, &moments),
        Step::Fires(now, timer) => assert!(rt; queue.pop_due(now) == timer),
        _ => assert!(rt; is_seen(queue, step)),
    }
    Ok(())
}

fn is_seen(queue: &TimerQueue, step: Step) -> bool {
    match step {
        Step::Leads(timer) => queue.least() == timer,
        Step::Enrolled(cid, enrolled) => queue.is_enrolled(cid) == enrolled,
        Step::Grace(cid, at) => queue.moments(cid).grace == at,
        _ => false,
    }
}

fn take_all(rt: &impl Abort, queue: &mut TimerQueue, steps: &[Step]) -> Result<(), Fail> {
    for step in steps {
        take(rt, queue, *step)?;
    }
    Ok(())
}

// Two timers, of which one fires before the other.
const PAIRS: [(Timer, Timer); 7] = [
    ((4999, TWO, Kind::Reply10), (5000, ONE, Kind::Handshake)),
    ((5000, ONE, Kind::Reply10), (5000, TWO, Kind::Handshake)),
    ((5000, ONE, Kind::Handshake), (5000, ONE, Kind::Grace)),
    ((5000, ONE, Kind::Grace), (5000, ONE, Kind::TimeWait)),
    ((5000, ONE, Kind::TimeWait), (5000, ONE, Kind::Reply2)),
    ((5000, ONE, Kind::Reply2), (5000, ONE, Kind::Reply8)),
    ((5000, ONE, Kind::Reply8), (5000, ONE, Kind::Reply10)),
];

fn run(rt: &impl Abort, alloc: Global, steps: &[Step]) -> Result<(), Fail> {
    let mut queue = TimerQueue::new(alloc);
    take_all(rt, &mut queue, steps)
}

// Both fire, whichever is set first, and then the queue is empty.
fn both_fire(
    rt: &impl Abort,
    alloc: Global,
    first: Timer,
    second: Timer,
    set: (Timer, Timer),
) -> Result<(), Fail> {
    let steps = [
        Step::Enrolls(TWO),
        Step::Enrolls(ONE),
        Step::Sets(set.0),
        Step::Sets(set.1),
        Step::Leads(Some(first)),
        Step::Fires(4998, None),
        Step::Fires(5000, Some(first)),
        Step::Leads(Some(second)),
        Step::Fires(4999, None),
        Step::Fires(5000, Some(second)),
        Step::Fires(u64::MAX, None),
        Step::Leads(None),
    ];
    run(rt, alloc, &steps)
}

fn all_fire(rt: &impl Abort, alloc: Global, pairs: &[(Timer, Timer)]) -> Result<(), Fail> {
    for (first, second) in pairs {
        both_fire(rt, alloc, *first, *second, (*first, *second))?;
        both_fire(rt, alloc, *first, *second, (*second, *first))?;
    }
    Ok(())
}

#[test]
fn timers_fire_by_moment_then_id_then_kind(rt: HostRuntime) -> Result<(), Fail> {
    all_fire(&rt, rt.alloc(), &PAIRS)
}

const ONE_AND_ANOTHER: [Step; 27] = [
    Step::Enrolled(ONE, false),
    Step::Enrolls(ONE),
    Step::Sets((5000, ONE, Kind::Grace)),
    Step::Leads(Some((5000, ONE, Kind::Grace))),
    // set anew, it is in no two places
    Step::Sets((7000, ONE, Kind::Grace)),
    Step::Sets((7000, ONE, Kind::Grace)),
    Step::Sets((6000, ONE, Kind::Reply8)),
    Step::Fires(5000, None),
    Step::Leads(Some((6000, ONE, Kind::Reply8))),
    Step::Grace(ONE, Some(7000)),
    Step::Grace(TWO, None),
    // of one that is there already, and of one that isn't there, nothing changes
    Step::Enrolls(ONE),
    Step::Clears(TWO, Kind::Reply8),
    Step::Leaves(TWO),
    Step::Clears(ONE, Kind::Handshake),
    Step::Leads(Some((6000, ONE, Kind::Reply8))),
    Step::Clears(ONE, Kind::Reply8),
    Step::Fires(7000, Some((7000, ONE, Kind::Grace))),
    Step::Leads(None),
    // one leaves
    Step::Enrolls(TWO),
    Step::Sets((9000, TWO, Kind::TimeWait)),
    Step::Sets((8000, ONE, Kind::Reply10)),
    Step::Leaves(ONE),
    Step::Enrolled(ONE, false),
    Step::Fires(8999, None),
    Step::Fires(9000, Some((9000, TWO, Kind::TimeWait))),
    Step::Enrolled(TWO, true),
];

#[test]
fn timers_of_a_connection(rt: HostRuntime) -> Result<(), Fail> {
    run(&rt, rt.alloc(), &ONE_AND_ANOTHER)
}

fn twenty_are_set(rt: &impl Abort, queue: &mut TimerQueue) -> Result<(), Fail> {
    for n in 0..20_u64 {
        take(rt, queue, Step::Enrolls(Cid(n)))?;
        take(rt, queue, Step::Sets((1000 + n, Cid(n), Kind::Grace)))?;
    }
    Ok(())
}

const TAKEN_OUT: [Step; 12] = [
    Step::Clears(Cid(5), Kind::Grace),
    Step::Clears(Cid(6), Kind::Grace),
    Step::Clears(Cid(7), Kind::Grace),
    Step::Clears(Cid(8), Kind::Grace),
    Step::Clears(Cid(9), Kind::Grace),
    Step::Leaves(Cid(15)),
    // again to the moment that it had, and one to another moment
    Step::Sets((1007, Cid(7), Kind::Grace)),
    Step::Sets((1030, Cid(8), Kind::Grace)),
    Step::Leads(Some((1000, Cid(0), Kind::Grace))),
    // the first, and one before it
    Step::Clears(Cid(1), Kind::Grace),
    Step::Clears(Cid(0), Kind::Grace),
    Step::Leads(Some((1002, Cid(2), Kind::Grace))),
];

fn some_are_moved_again_and_again(rt: &impl Abort, queue: &mut TimerQueue) -> Result<(), Fail> {
    for at in 2000..2300_u64 {
        for n in 16..20_u64 {
            take(rt, queue, Step::Sets((at + n, Cid(n), Kind::Grace)))?;
            take(rt, queue, Step::Sets((1100 + n, Cid(n), Kind::Reply8)))?;
            take(rt, queue, Step::Clears(Cid(n), Kind::Reply8))?;
        }
    }
    Ok(())
}

const LEFT: [(u64, u64); 14] = [
    (1002, 2),
    (1003, 3),
    (1004, 4),
    (1007, 7),
    (1010, 10),
    (1011, 11),
    (1012, 12),
    (1013, 13),
    (1014, 14),
    (1030, 8),
    (2315, 16),
    (2316, 17),
    (2317, 18),
    (2318, 19),
];

// These fire, and no others.
fn graces_fire(rt: &impl Abort, queue: &mut TimerQueue, graces: &[(u64, u64)]) -> Result<(), Fail> {
    for (at, n) in graces {
        take(
            rt,
            queue,
            Step::Fires(u64::MAX, Some((*at, Cid(*n), Kind::Grace))),
        )?;
    }
    take(rt, queue, Step::Fires(u64::MAX, None))?;
    take(rt, queue, Step::Leads(None))
}

#[test]
fn what_was_taken_out_does_not_fire(rt: HostRuntime) -> Result<(), Fail> {
    let mut queue = TimerQueue::new(rt.alloc());
    twenty_are_set(&rt, &mut queue)?;
    take_all(&rt, &mut queue, &TAKEN_OUT)?;
    some_are_moved_again_and_again(&rt, &mut queue)?;
    graces_fire(&rt, &mut queue, &LEFT)
}

const NO_MOMENTS: Moments = Moments {
    handshake: None,
    grace: None,
    time_wait: None,
    reply2: None,
    reply8: None,
    reply10: None,
};

const A_GRACE_AND_A_REPLY: Moments = Moments {
    grace: Some(6000),
    reply8: Some(5000),
    ..NO_MOMENTS
};

const PUT_AT_ONCE: [Step; 11] = [
    Step::Enrolls(ONE),
    Step::Enrolls(TWO),
    Step::Sets((5500, TWO, Kind::Grace)),
    Step::Sets((1000, ONE, Kind::Handshake)),
    // what it had is gone
    Step::Puts(ONE, A_GRACE_AND_A_REPLY),
    Step::Fires(4999, None),
    Step::Fires(5000, Some((5000, ONE, Kind::Reply8))),
    Step::Leads(Some((5500, TWO, Kind::Grace))),
    Step::Puts(TWO, NO_MOMENTS),
    Step::Leads(Some((6000, ONE, Kind::Grace))),
    Step::Grace(TWO, None),
];

#[test]
fn all_timers_are_put_at_once(rt: HostRuntime) -> Result<(), Fail> {
    run(&rt, rt.alloc(), &PUT_AT_ONCE)
}

// Of four rows the last is of id 9.
#[test]
fn a_row_is_looked_for_before_the_last_one(rt: HostRuntime) {
    for &(cid, place) in &[
        (9, Some(3)),
        (8, Some(2)),
        (6, Some(0)),
        (5, None),
        (10, None),
    ] {
        assert!(rt; place_from(4, Cid(9), Cid(cid)) == place, "{cid}");
    }
    assert!(rt; place_from(0, Cid(9), Cid(9)) == None);
}
