use crate::link::{Hold, Link, Side};
use crate::node::Node;
use net_base::{Cid, OutOfMemory};

/// The nodes of a network, and whether it is in two.
#[derive(Drop)]
pub(crate) struct Nodes {
    pub all: Vec<Node>,
    pub is_parted: bool,
}

impl Nodes {
    pub(crate) fn get(&self, index: usize) -> Option<&Node> {
        self.all.get(index)
    }

    pub(crate) fn get_mut(&mut self, index: usize) -> Option<&mut Node> {
        self.all.get_mut(index)
    }

    pub(crate) fn is_up(&self, index: usize) -> bool {
        match self.get(index) {
            Some(node) => node.is_up,
            None => false,
        }
    }

    pub(crate) fn is_honest(&self, index: usize) -> bool {
        match self.get(index) {
            Some(node) => node.is_honest(),
            None => false,
        }
    }

    /// A node is up, and in this life.
    pub(crate) fn lives(&self, index: usize, life: u64) -> bool {
        match self.get(index) {
            Some(node) => node.is_up && node.life == life,
            None => false,
        }
    }

    /// The network is in two, and these are in different parts.
    pub(crate) fn are_apart(&self, one: usize, other: usize) -> bool {
        match (self.get(one), self.get(other)) {
            (Some(one), Some(other)) => self.is_parted && one.is_apart != other.is_apart,
            _ => false,
        }
    }

    /// The ends of a link are in different parts.
    pub(crate) fn parts(&self, link: &Link) -> bool {
        self.are_apart(link.dialer.node, link.acceptor.node)
    }

    /// The end of a link is a node's connection of this id from now on.
    pub(crate) fn hold(&mut self, index: usize, cid: Cid, hold: Hold) -> Result<(), OutOfMemory> {
        if let Some(node) = self.get_mut(index) {
            node.links.insert(cid.0, hold)?;
        }
        Ok(())
    }

    pub(crate) fn hold_of(&self, index: usize, cid: Cid) -> Option<Hold> {
        self.get(index)?.links.get(&cid.0).copied()
    }

    pub(crate) fn let_go(&mut self, index: usize, cid: Cid) {
        if let Some(node) = self.get_mut(index) {
            node.links.remove(&cid.0);
        }
    }

    /// Who dialed a node waits to be accepted.
    pub(crate) fn wait(&mut self, index: usize, link: u64) -> Result<(), OutOfMemory> {
        if let Some(node) = self.get_mut(index) {
            node.callers.push_back(link)?;
        }
        Ok(())
    }

    /// Takes out one of a node's links, first those of who waits to be accepted.
    pub(crate) fn take_hold(&mut self, index: usize) -> Option<Hold> {
        let node = self.get_mut(index)?;
        if let Some(link) = node.callers.pop_front() {
            return Some(Hold {
                link,
                side: Side::Acceptor,
            });
        }
        let (_, hold) = node.links.pop_first()?;
        Some(hold)
    }
}
