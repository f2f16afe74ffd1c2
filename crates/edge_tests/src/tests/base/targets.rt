use net_base::{BigTargets, Field, Targets};

const fn targets(root: u64, known: u64, established: u64, active: u64) -> Targets {
    Targets {
        root,
        known,
        established,
        active,
    }
}

#[test]
fn each_bound_is_named_by_its_field(rt: HostRuntime) {
    assert!(rt; targets(10_000, 10_000, 1_000, 100).check().is_none());
    assert!(rt; targets(0, 0, 0, 0).check().is_none());
    for (aims, field) in [
        (targets(2, 1, 0, 0), Field::Root),
        (targets(0, 10_001, 0, 0), Field::Known),
        (targets(0, 5, 6, 0), Field::Established),
        (targets(0, 10_000, 1_001, 0), Field::Established),
        (targets(0, 10, 5, 6), Field::Active),
        (targets(0, 1_000, 1_000, 101), Field::Active),
        // the first of several
        (targets(9, 1, 2, 3), Field::Root),
        (targets(0, 1, 2, 0), Field::Established),
    ] {
        assert!(rt;
            aims.check() == Some(field),
            "at {field:?} of {}",
            aims.known
        );
    }
}

const fn big(known: u64, established: u64, active: u64) -> BigTargets {
    BigTargets {
        known,
        established,
        active,
    }
}

#[test]
fn big_targets_have_the_same_bounds(rt: HostRuntime) {
    assert!(rt; big(5, 1, 0).check().is_none());
    assert!(rt; big(10_001, 1, 0).check() == Some(Field::Known));
    assert!(rt; big(1, 2, 0).check() == Some(Field::Established));
    assert!(rt; big(3, 2, 3).check() == Some(Field::Active));
}
