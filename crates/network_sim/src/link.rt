use net_base::{Cid, Octets};
use std::alloc::Global;
use std::collections::VecDeque;

/// An end of a link, by who dialed.
#[derive(Clone, Copy)]
pub(crate) enum Side {
    Dialer,
    Acceptor,
}

impl Side {
    pub(crate) fn other(self) -> Side {
        match self {
            Side::Dialer => Side::Acceptor,
            Side::Acceptor => Side::Dialer,
        }
    }
}

/// Which end of which link a node's connection is.
#[derive(Clone, Copy)]
pub(crate) struct Hold {
    pub link: u64,
    pub side: Side,
}

/// One end of a link.
#[derive(Clone, Copy)]
pub(crate) struct End {
    pub node: usize,
    /// What the node calls it. None before it was admitted.
    pub cid: Option<Cid>,
    pub is_open: bool,
    /// The moment before which nothing that is sent now comes here: bytes stay in order.
    pub ready: u64,
}

/// A link between two nodes, or a dial on its way.
#[derive(Drop)]
pub(crate) struct Link {
    pub dialer: End,
    pub acceptor: End,
    pub latency: u64,
    /// What came to the acceptor before it admitted the dialer.
    pub early: VecDeque<Octets>,
}

impl Link {
    /// A dial on its way.
    pub(crate) fn new(alloc: Global, from: usize, cid: Cid, to: usize, latency: u64) -> Link {
        let dialer = End {
            node: from,
            cid: Some(cid),
            is_open: true,
            ready: 0,
        };
        let acceptor = End {
            node: to,
            cid: None,
            is_open: false,
            ready: 0,
        };
        Link {
            dialer,
            acceptor,
            latency,
            early: VecDeque::new(alloc),
        }
    }

    pub(crate) fn end(&self, side: Side) -> End {
        match side {
            Side::Dialer => self.dialer,
            Side::Acceptor => self.acceptor,
        }
    }

    pub(crate) fn end_mut(&mut self, side: Side) -> &mut End {
        match side {
            Side::Dialer => &mut self.dialer,
            Side::Acceptor => &mut self.acceptor,
        }
    }

    /// When what is sent at a moment comes to an end. None where it never does.
    pub(crate) fn arrival(&mut self, side: Side, sent: u64) -> Option<u64> {
        let moment = sent.saturating_add(self.latency);
        let end = self.end_mut(side);
        if !end.is_open {
            return None;
        }
        end.ready = end.ready.max(moment);
        Some(end.ready)
    }
}
