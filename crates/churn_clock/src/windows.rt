ghost use Rattle.std.specs.Prelude.{◌≡◌, ◌≢◌, ℕ, ◌-◌, ◌/◌, ◌^◌, ◌<◌, ◌≤◌, max, true, false, IsTrue, ◌↔◌};
ghost use Rattle.net_base.specs.declared.targets.Targets.{Targets};
ghost use Rattle.churn_clock.specs.Windows.{lowered, effective_of, effective_big_of, is_edge};

use net_base::{BigTargets, Targets};

/// Milliseconds after which the windows come again.
const PERIOD: u64 = 3_300_000;

/// Where in the period the active target is lowered, until the established one is.
const ACTIVE_FROM: u64 = 3_120_000;

/// Where the established target is lowered, until the known one is.
const ESTABLISHED_FROM: u64 = 3_180_000;

/// Where the known target is lowered, until the period ends.
const KNOWN_FROM: u64 = 3_240_000;

/// The targets that hold at a moment.
pub fn effective(targets: &Targets, now: u64) -> Targets
    ensures { result ≡ effective_of targets.now now }
{
    let mut lower = *targets;
    let place = now % PERIOD;
    if place >= KNOWN_FROM {
        lower.known = low(targets.known).max(targets.established);
    } else if place >= ESTABLISHED_FROM {
        lower.established = low(targets.established).max(targets.active);
    } else if place >= ACTIVE_FROM {
        lower.active = low(targets.active);
    }
    lower
}

/// The targets of big ledger peers that hold at a moment.
pub fn effective_big(targets: &BigTargets, now: u64) -> BigTargets
    ensures { result ≡ effective_big_of targets.now now }
{
    let all = Targets {
        root: 0,
        known: targets.known,
        established: targets.established,
        active: targets.active,
    };
    let Targets {
        known,
        established,
        active,
        ..
    } = effective(&all, now);
    BigTargets {
        known,
        established,
        active,
    }
}

fn low(target: u64) -> u64
    ensures { result ≡ lowered target }
{
    target.saturating_sub((target / 5).max(1))
}

/// The first moment above `now` at which a window begins or ends. Until then all targets stay as they are.
pub fn next_change(now: u64) -> u64
    requires { now ≤ 2 ^ 48 }
    ensures later { now < result }
    ensures edge { IsTrue (is_edge result) }
    ensures first { (moment : ℕ) → now < moment → moment < result → is_edge moment ≡ false }
    ensures steady { (targets : Targets) (moment : ℕ) → now ≤ moment → moment < result → effective_of targets moment ≡ effective_of targets now }
{
    let place = now % PERIOD;
    let start = now - place;
    let edge = if place < ACTIVE_FROM {
        ACTIVE_FROM
    } else if place < ESTABLISHED_FROM {
        ESTABLISHED_FROM
    } else if place < KNOWN_FROM {
        KNOWN_FROM
    } else {
        PERIOD
    };
    start + edge
}
