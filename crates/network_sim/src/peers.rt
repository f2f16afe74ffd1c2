use crate::addresses::place_of;
use net_base::{Action, Addr, Cid, OutOfMemory, PeerNote, StateName};
use std::alloc::Global;
use std::collections::BTreeSet;

/// What a node has told of its peers and connections.
#[derive(Drop)]
pub(crate) struct Peers {
    pub known: u64,
    pub warm: BTreeSet<usize>,
    /// The nodes that are hot to it.
    pub hot: BTreeSet<usize>,
    /// The connections in a state that the limits count.
    pub counted: BTreeSet<u64>,
}

impl Peers {
    pub(crate) fn new(alloc: Global) -> Peers {
        Peers {
            known: 0,
            warm: BTreeSet::new(alloc),
            hot: BTreeSet::new(alloc),
            counted: BTreeSet::new(alloc),
        }
    }

    /// How many are warm or hot.
    pub(crate) fn established(&self) -> u64 {
        let active = self.hot.len() as u64;
        active.saturating_add(self.warm.len() as u64)
    }

    /// Keeps what an action tells.
    pub(crate) fn hear(&mut self, action: &Action) -> Result<(), OutOfMemory> {
        match action {
            Action::Peer(addr, note) => self.hear_of_peer(*addr, *note),
            Action::State(cid, name) => self.hear_of_state(*cid, *name),
            _ => Ok(()),
        }
    }

    fn hear_of_peer(&mut self, addr: Addr, note: PeerNote) -> Result<(), OutOfMemory> {
        let peer = place_of(addr);
        self.hot.remove(&peer);
        self.warm.remove(&peer);
        match note {
            PeerNote::Known => self.known = self.known.saturating_add(1),
            PeerNote::Forgotten => self.known = self.known.saturating_sub(1),
            PeerNote::Cold => {}
            PeerNote::Warm => {
                self.warm.insert(peer)?;
            }
            PeerNote::Hot => {
                self.hot.insert(peer)?;
            }
        }
        Ok(())
    }

    fn hear_of_state(&mut self, cid: Cid, name: StateName) -> Result<(), OutOfMemory> {
        match name {
            StateName::UnnegotiatedInbound
            | StateName::Inbound
            | StateName::InboundIdle
            | StateName::Duplex => {
                self.counted.insert(cid.0)?;
            }
            _ => {
                self.counted.remove(&cid.0);
            }
        }
        Ok(())
    }
}
