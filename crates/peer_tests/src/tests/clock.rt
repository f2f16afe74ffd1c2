use churn_clock::{effective, effective_big, next_change};
use net_base::{BigTargets, Targets};

#[test]
fn one_target_after_the_other_is_lowered(rt: HostRuntime) {
    let given = Targets {
        root: 3,
        known: 10,
        established: 6,
        active: 5,
    };
    for (now, known, established, active, next) in [
        (0, 10, 6, 5, 3_120_000),
        (3_119_999, 10, 6, 5, 3_120_000),
        (3_120_000, 10, 6, 4, 3_180_000),
        (3_180_000, 10, 5, 5, 3_240_000),
        (3_240_000, 8, 6, 5, 3_300_000),
        (3_300_000, 10, 6, 5, 6_420_000),
    ] {
        let want = Targets {
            root: 3,
            known,
            established,
            active,
        };
        assert!(rt; effective(&given, now) == want, "at {now}");
        assert!(rt; next_change(now) == next, "after {now}");
    }
}

#[test]
fn big_targets_in_the_same_windows(rt: HostRuntime) {
    let given = BigTargets {
        known: 10,
        established: 6,
        active: 5,
    };
    for (now, known, established, active) in [
        (3_119_999, 10, 6, 5),
        (3_120_000, 10, 6, 4),
        (3_180_000, 10, 5, 5),
        (3_240_000, 8, 6, 5),
    ] {
        let want = BigTargets {
            known,
            established,
            active,
        };
        assert!(rt; effective_big(&given, now) == want, "at {now}");
    }
}

#[test]
fn a_target_of_nothing_stays(rt: HostRuntime) {
    let nothing = Targets {
        root: 0,
        known: 0,
        established: 0,
        active: 0,
    };
    for now in [3_120_000, 3_180_000, 3_240_000] {
        assert!(rt; effective(&nothing, now) == nothing);
    }
}
