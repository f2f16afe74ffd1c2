use crate::link::{End, Link, Side};
use net_base::{Cid, Event, Octets, OutOfMemory};
use std::alloc::Global;
use std::collections::BTreeMap;

/// The links of a network, by their numbers.
#[derive(Drop)]
pub(crate) struct Links {
    pub all: BTreeMap<u64, Link>,
    /// The number of the next link.
    pub next: u64,
}

impl Links {
    pub(crate) fn new(alloc: Global) -> Links {
        Links {
            all: BTreeMap::new(alloc),
            next: 1,
        }
    }

    /// Puts in the next link.
    pub(crate) fn put(&mut self, link: Link) -> Result<(), OutOfMemory> {
        self.all.insert(self.next, link)?;
        self.next = self.next.saturating_add(1);
        Ok(())
    }

    pub(crate) fn get_mut(&mut self, id: u64) -> Option<&mut Link> {
        self.all.get_mut(&id)
    }

    pub(crate) fn remove(&mut self, id: u64) {
        self.all.remove(&id);
    }

    /// Whose an end is and what that node calls it, where it is open.
    pub(crate) fn open_end(&self, id: u64, side: Side) -> Option<(usize, Option<Cid>)> {
        let end = self.all.get(&id)?.end(side);
        if end.is_open {
            Some((end.node, end.cid))
        } else {
            None
        }
    }

    /// Who dials whom, and how long bytes are on their way.
    pub(crate) fn ends_of(&self, id: u64) -> Option<(usize, usize, u64)> {
        let link = self.all.get(&id)?;
        Some((link.dialer.node, link.acceptor.node, link.latency))
    }

    pub(crate) fn end_mut(&mut self, id: u64, side: Side) -> Option<&mut End> {
        Some(self.get_mut(id)?.end_mut(side))
    }

    /// An end closes. A link with no open end is gone.
    pub(crate) fn close(&mut self, id: u64, side: Side) {
        let is_over = match self.get_mut(id) {
            Some(link) => {
                link.end_mut(side).is_open = false;
                !link.dialer.is_open && !link.acceptor.is_open
            }
            None => false,
        };
        if is_over {
            self.remove(id);
        }
    }

    /// Bytes wait until the acceptor has admitted the dialer.
    pub(crate) fn keep(&mut self, id: u64, bytes: Octets) -> Result<(), OutOfMemory> {
        if let Some(link) = self.get_mut(id) {
            link.early.push_back(bytes)?;
        }
        Ok(())
    }

    /// The first bytes that wait come to the acceptor, where it has admitted the dialer.
    pub(crate) fn take_early(&mut self, id: Option<u64>) -> Option<Event> {
        let link = self.get_mut(id?)?;
        let cid = link.acceptor.cid?;
        if !link.acceptor.is_open {
            return None;
        }
        let bytes = link.early.pop_front()?;
        Some(Event::Bytes(cid, bytes))
    }
}
