use super::{AT_3002, BOTH_WAYS, NONE_RUNNING};
use accept_gate::{Candidate, prune_choice, rank};
use net_base::{Cid, Facts, Grace, Phase, Provenance, Responders};
use std::process::Abort;

// A candidate by its id and its rank.
macro_rules! candidate {
    ($cid:literal, $rank:literal) => {
        Candidate {
            cid: Cid($cid),
            rank: $rank,
        }
    };
}

const GREETING: Facts = Facts {
    cid: Cid(1),
    addr: AT_3002,
    provenance: Provenance::FromRemote,
    phase: Phase::Greeting(10_000),
    agreed: None,
    local: false,
    running: NONE_RUNNING,
    grace: Grace::Off,
};

const IDLE: Facts = Facts {
    phase: Phase::Negotiated,
    agreed: Some(BOTH_WAYS),
    grace: Grace::ForRemote(5000),
    ..GREETING
};

const WARM: Facts = Facts {
    running: Responders {
        keep_alive: true,
        peer_sharing: true,
        ..NONE_RUNNING
    },
    grace: Grace::Off,
    ..IDLE
};

const HOT: Facts = Facts {
    running: Responders {
        tx_submission: true,
        ..NONE_RUNNING
    },
    grace: Grace::Off,
    ..IDLE
};

const DIALED: Facts = Facts {
    provenance: Provenance::FromLocal,
    phase: Phase::Dialing,
    ..GREETING
};

const RANKS: [(&str, Facts, Option<u8>); 10] = [
    ("InboundIdle", IDLE, Some(0)),
    ("UnnegotiatedInbound", GREETING, Some(1)),
    ("Inbound, warm", WARM, Some(2)),
    ("Inbound, hot", HOT, Some(3)),
    (
        "OutboundDupTicking",
        Facts {
            local: true,
            ..IDLE
        },
        None,
    ),
    ("Duplex", Facts { local: true, ..HOT }, None),
    (
        "OutboundIdle",
        Facts {
            grace: Grace::ForLocal(5000),
            ..IDLE
        },
        None,
    ),
    ("ReservedOutbound", DIALED, None),
    (
        "UnnegotiatedOutbound",
        Facts {
            phase: Phase::Greeting(10_000),
            ..DIALED
        },
        None,
    ),
    (
        "Terminating",
        Facts {
            phase: Phase::Closing(60_000),
            ..GREETING
        },
        None,
    ),
];

fn have_ranks(rt: &impl Abort, ranks: &[(&str, Facts, Option<u8>)]) {
    for (name, facts, wanted) in ranks {
        assert!(rt; rank(facts) == *wanted, "{name}");
    }
}

#[test]
fn ranks(rt: HostRuntime) {
    have_ranks(&rt, &RANKS);
}

// Candidates, and which of them goes: the one of least rank, and of several the youngest.
const CHOICES: [(&[Candidate], Option<Cid>); 5] = [
    (&[], None),
    (&[candidate!(7, 3)], Some(Cid(7))),
    (
        &[candidate!(1, 3), candidate!(2, 1), candidate!(3, 2)],
        Some(Cid(2)),
    ),
    (
        &[candidate!(1, 1), candidate!(5, 1), candidate!(3, 1)],
        Some(Cid(5)),
    ),
    (
        &[candidate!(9, 1), candidate!(2, 0), candidate!(4, 0)],
        Some(Cid(4)),
    ),
];

fn are_chosen(rt: &impl Abort, choices: &[(&[Candidate], Option<Cid>)]) {
    for (candidates, wanted) in choices {
        assert!(rt; prune_choice(candidates) == *wanted);
    }
}

#[test]
fn choices(rt: HostRuntime) {
    are_chosen(&rt, &CHOICES);
}
