use super::steps::addresses::{A1, A2, A3, A4, A5};
use super::steps::scene::{Members, groups};
use net_base::{Addr, AddrList, Group, Job, OutOfMemory};
use root_groups::{Groups, Roots, each_address_stays_in_its_first_group};
use std::alloc::Global;
use std::process::Abort;

fn is(group: &Group, want: &Members) -> bool {
    group.hot == want.hot
        && group.warm == want.warm
        && group.advertise == want.advertise
        && group.members.as_slice() == want.addrs
}

fn are(groups: &[Group], want: &[Members; 2]) -> bool {
    let [first, second] = want;
    match groups {
        [group, other] => is(group, first) && is(other, second),
        _ => false,
    }
}

// Each of these addresses is in the group of that place.
fn stand_in(rt: &impl Abort, groups: &Groups, places: &[(Addr, Option<usize>)]) {
    for (addr, place) in places {
        assert!(rt; groups.group_of(*addr) == *place, "of {}", addr.port);
    }
}

fn is_in_no_group(alloc: Global, addr: Addr) -> bool {
    Groups::new(alloc).group_of(addr) == None
}

const GIVEN: [Members; 2] = [
    Members {
        hot: 1,
        warm: 2,
        advertise: true,
        addrs: &[A2, A3, A1, A2],
    },
    Members {
        hot: 0,
        warm: 1,
        advertise: false,
        addrs: &[A2, A4],
    },
];

const KEPT: [Members; 2] = [
    Members {
        hot: 1,
        warm: 2,
        advertise: true,
        addrs: &[A2, A3],
    },
    Members {
        hot: 0,
        warm: 1,
        advertise: false,
        addrs: &[A4],
    },
];

const PLACES: [(Addr, Option<usize>); 5] = [
    (A1, None),
    (A2, Some(0)),
    (A3, Some(0)),
    (A4, Some(1)),
    (A5, None),
];

#[test]
fn an_address_keeps_its_first_place(rt: HostRuntime) -> Result<(), OutOfMemory> {
    let groups = groups(rt.alloc(), &GIVEN)?;
    assert!(rt; are(groups.list().as_slice(), &KEPT));
    stand_in(&rt, &groups, &PLACES);
    assert!(rt; is_in_no_group(rt.alloc(), A2));
    each_address_stays_in_its_first_group();
    Ok(())
}

#[test]
fn a_failed_ask_is_asked_again_after_the_back_off(rt: HostRuntime) {
    let mut roots = Roots::new(rt.alloc());
    assert!(rt; roots.ask(0, 1) == Some(Job(1)));
    assert!(rt; roots.failed(Job(1), 0, 5000));
    assert!(rt; roots.ask(4999, 1) == None);
    assert!(rt; roots.ask(5000, 1) == Some(Job(2)));
    let nobody = AddrList::new(rt.alloc());
    assert!(rt;
        !roots
            .found(Job(1), 1000, &nobody, A1, 1, 5000)
            .expect(&rt, "no memory is asked for")
    );
    assert!(rt; roots.ask(10_000, 1) == None);
}

fn the_first_are_public(rt: &impl Abort, roots: &Roots) {
    assert!(rt; roots.publics().as_slice() == [A2, A3].as_slice());
    for (addr, public) in [(A1, false), (A2, true), (A3, true), (A4, false)] {
        assert!(rt; roots.is_public(addr) == public, "{}", addr.port);
    }
}

#[test]
fn the_first_distinct_addresses_are_the_public_roots(rt: HostRuntime) {
    let answer = AddrList::from_slice(rt.alloc(), &[A2, A1, A2, A3, A4]).expect(
        &rt,
        "memory is left",
    );
    let mut roots = Roots::new(rt.alloc());
    assert!(rt; roots.ask(0, 2) == Some(Job(1)));
    assert!(rt;
        roots
            .found(Job(1), 1000, &answer, A1, 2, 7)
            .expect(&rt, "memory is left")
    );
    the_first_are_public(&rt, &roots);
    // as many as are wanted; more are wanted, but not yet; and then they are asked for
    assert!(rt; roots.ask(5000, 2) == None);
    assert!(rt; roots.ask(1006, 3) == None);
    assert!(rt; roots.ask(1007, 3) == Some(Job(2)));
}
