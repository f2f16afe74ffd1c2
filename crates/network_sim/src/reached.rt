use crate::peers::Peers;
use net_base::Targets;

/// When a node had as many peers as wanted for the first time, each in milliseconds since it began.
#[derive(Clone, Copy)]
pub(crate) struct Reached {
    pub known: Option<u64>,
    pub established: Option<u64>,
    pub active: Option<u64>,
}

pub(crate) const NOTHING_REACHED: Reached = Reached {
    known: None,
    established: None,
    active: None,
};

impl Reached {
    /// With what is reached now.
    pub(crate) fn with(&self, age: u64, peers: &Peers, targets: &Targets) -> Reached {
        let active = peers.hot.len() as u64;
        Reached {
            known: first(self.known, age, peers.known, targets.known),
            established: first(
                self.established,
                age,
                peers.established(),
                targets.established,
            ),
            active: first(self.active, age, active, targets.active),
        }
    }
}

fn first(before: Option<u64>, age: u64, count: u64, target: u64) -> Option<u64> {
    if before.is_none() && count >= target {
        Some(age)
    } else {
        before
    }
}
