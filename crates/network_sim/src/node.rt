use crate::addresses::address_of;
use crate::link::{Hold, Side};
use crate::measure::Measure;
use crate::peers::Peers;
use crate::reached::{NOTHING_REACHED, Reached};
use net_base::{Addr, Targets};
use network_scenario::Role;
use std::alloc::Global;
use std::collections::{BTreeMap, VecDeque};

/// A node of the network, but for what steps for it.
#[derive(Drop)]
pub(crate) struct Node {
    /// The place of its kind.
    pub kind: usize,
    pub role: Role,
    pub addr: Addr,
    pub is_up: bool,
    /// How often it began. What was meant for an earlier life of it comes to nothing.
    pub life: u64,
    pub begun: u64,
    /// The moment that its engine was shown last.
    pub shown: u64,
    /// Its links by what it calls them.
    pub links: BTreeMap<u64, Hold>,
    /// The links of those that wait to be accepted.
    pub callers: VecDeque<u64>,
    /// It accepts nobody before this moment.
    pub paused_until: u64,
    /// It is in the part that `Parting::apart` names while the network is in two.
    pub is_apart: bool,
    pub peers: Peers,
    reached: Reached,
}

impl Node {
    pub(crate) fn new(alloc: Global, place: usize, kind: usize, role: Role) -> Node {
        Node {
            kind,
            role,
            addr: address_of(place),
            is_up: false,
            life: 0,
            begun: 0,
            shown: 0,
            links: BTreeMap::new(alloc),
            callers: VecDeque::new(alloc),
            paused_until: 0,
            is_apart: false,
            peers: Peers::new(alloc),
            reached: NOTHING_REACHED,
        }
    }

    pub(crate) fn is_honest(&self) -> bool {
        matches!(self.role, Role::Honest)
    }

    /// It has just begun.
    pub(crate) fn begin(&mut self, alloc: Global, moment: u64) {
        self.is_up = true;
        self.life = self.life.saturating_add(1);
        self.begun = moment;
        self.shown = 0;
        self.paused_until = 0;
        self.peers = Peers::new(alloc);
        self.reached = NOTHING_REACHED;
    }

    /// Notes what of its targets it has reached.
    pub(crate) fn look(&mut self, now: u64, targets: &Targets) {
        let age = now.saturating_sub(self.begun);
        self.reached = self.reached.with(age, &self.peers, targets);
    }

    /// How many of its links it dialed.
    pub(crate) fn dialed(&self) -> u64 {
        let mut dialed: u64 = 0;
        for hold in self.links.values() {
            if matches!(hold.side, Side::Dialer) {
                dialed = dialed.saturating_add(1);
            }
        }
        dialed
    }

    /// A number that is reported of it, where it has it.
    pub(crate) fn measure(&self, measure: Measure) -> Option<u64> {
        match measure {
            Measure::ReachedKnown => self.reached.known,
            Measure::ReachedEstablished => self.reached.established,
            Measure::ReachedActive => self.reached.active,
            _ if !self.is_up => None,
            Measure::Known => Some(self.peers.known),
            Measure::Established => Some(self.peers.established()),
            Measure::Active => Some(self.peers.hot.len() as u64),
            Measure::Counted => Some(self.peers.counted.len() as u64),
        }
    }
}
