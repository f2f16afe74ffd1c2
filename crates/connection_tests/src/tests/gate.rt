use super::settings;
use accept_gate::{Gate, verdict};
use net_base::Settings;
use std::process::Abort;

// Of limits, a delay and a count: what is said to the next peer.
const VERDICTS: [(u64, u64, u64, u64, Gate); 8] = [
    (2, 1, 5000, 0, Gate::Free),
    (2, 1, 5000, 1, Gate::Pause(5000)),
    (2, 1, 5000, 2, Gate::Full),
    (3, 1, 6000, 1, Gate::Pause(3000)),
    (3, 1, 6000, 2, Gate::Pause(6000)),
    (3, 0, 10, 0, Gate::Pause(3)),
    (3, 3, 10, 2, Gate::Free),
    (3, 3, 10, 3, Gate::Full),
];

fn says(rt: &impl Abort, settings: &Settings, count: u64, gate: Gate) {
    assert!(rt; settings.check().is_none());
    assert!(rt; verdict(settings, count) == gate);
}

fn say_all(rt: &impl Abort, verdicts: &[(u64, u64, u64, u64, Gate)]) {
    for (hard, soft, delay, count, gate) in verdicts {
        let settings = Settings {
            hard: *hard,
            soft: *soft,
            delay: *delay,
            ..settings()
        };
        says(rt, &settings, *count, *gate);
    }
}

#[test]
fn the_pause_grows_from_the_soft_limit_to_the_hard_one(rt: HostRuntime) {
    say_all(&rt, &VERDICTS);
}
