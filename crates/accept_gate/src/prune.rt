ghost use Rattle.std.specs.Prelude.{◌≡◌};
ghost use Rattle.accept_gate.specs.Prune.{is_candidate, rank_of_candidate, rank_of, goes_before, first_of, first_to_go, choice_of};

use conn_state::facts::{is_counted, is_greeting};
use conn_state::responders::{some_hot_runs, some_runs};
use conn_state::{Cid, Facts};

/// A connection that may go.
#[derive(Clone, Copy, PartialEq, Eq)]
pub struct Candidate {
    pub cid: Cid,
    /// 0 to 3: those of least rank go first.
    pub rank: u8,
}

/// How soon a connection goes where there are too many: 0 where nobody uses it, 1 in its handshake, 2 where the
/// other side runs no more than keep-alive and peer-sharing, 3 where it runs more. None where it does not count
/// or is in local use. The ranks are this project's own.
pub fn rank(facts: &Facts) -> Option<u8>
    ensures { result ≡ rank_of facts.now }
{
    if is_candidate(facts) {
        Some(rank_of_candidate(facts))
    } else {
        None
    }
}

/// Which of the candidates goes: one of least rank, and of those the one with the greatest id.
pub fn prune_choice(candidates: &[Candidate]) -> Option<Cid>
    ensures { result ≡ choice_of candidates.now }
{
    Some(first_to_go(candidates)?.cid)
}

// The candidate before which no other goes.
fn first_to_go(candidates: &[Candidate]) -> Option<Candidate>
    ensures { result ≡ first_to_go candidates.now }
{
    // The first of a list is the first of its head and of the first of the rest.
    let mut first = None;
    for place in (0..candidates.len()).rev() {
        first = Some(first_of(candidates[place], first));
    }
    first
}

/// The one of two that goes first.
pub fn first_of(candidate: Candidate, other: Option<Candidate>) -> Candidate
    ensures { result ≡ first_of candidate other }
{
    match other {
        Some(other) if other.goes_before(&candidate) => other,
        _ => candidate,
    }
}

impl Candidate {
    fn goes_before(&self, other: &Candidate) -> bool
        ensures { result ≡ goes_before self.now other.now }
    {
        self.rank < other.rank || (self.rank == other.rank && self.cid > other.cid)
    }
}

// Whether a connection counts and is not in local use.
fn is_candidate(facts: &Facts) -> bool
    ensures { result ≡ is_candidate facts.now }
{
    is_counted(facts) && !facts.local
}

fn rank_of_candidate(facts: &Facts) -> u8
    ensures { result ≡ rank_of_candidate facts.now }
{
    if is_greeting(facts) {
        1
    } else if some_hot_runs(facts.running) {
        3
    } else if some_runs(facts.running) {
        2
    } else {
        0
    }
}
