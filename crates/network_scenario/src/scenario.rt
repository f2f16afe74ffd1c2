use crate::{Kind, Leaving, Parting};

/// Which words the governors are given.
#[derive(Clone, Copy)]
pub enum Words {
    /// Any 64 bits.
    Wide,
    /// Those under which some address of the network scores least.
    Near,
}

/// What all links are like. Times are milliseconds, and shares are of a thousand.
#[derive(Clone, Copy)]
pub struct Links {
    /// How long bytes are on their way, at least and at most. A link keeps what was drawn for it.
    pub latency_least: u64,
    pub latency_most: u64,
    /// How many dials are lost.
    pub lost: u64,
    /// How many messages are lost once, and come late by `again`.
    pub late: u64,
    pub again: u64,
    /// How many messages come in two pieces.
    pub cut: u64,
    /// After which time a dial that nobody answers has failed.
    pub wait: u64,
}

/// Who tells public root peers.
#[derive(Clone, Copy)]
pub struct Provider {
    /// How many addresses an answer has, at most.
    pub told: u64,
    /// For how many milliseconds it serves.
    pub serves: u64,
}

/// A network, and what happens to it.
#[derive(Drop)]
pub struct Scenario {
    /// For how many seconds it is simulated.
    pub seconds: u64,
    pub words: Words,
    pub links: Links,
    pub provider: Provider,
    /// The kinds of nodes. Their nodes have addresses one behind another, in this order.
    pub kinds: Vec<Kind>,
    pub partings: Vec<Parting>,
    pub leavings: Vec<Leaving>,
}

impl Scenario {
    /// How many nodes there are.
    pub fn nodes(&self) -> u64 {
        let mut nodes: u64 = 0;
        for kind in &self.kinds {
            nodes = nodes.saturating_add(kind.count);
        }
        nodes
    }

    /// As many engines are begun at most: each node's, and one more of it after each time that nodes leave and come back.
    pub fn engines(&self) -> u64 {
        let mut lives: u64 = 1;
        for leaving in &self.leavings {
            if leaving.back.is_some() {
                lives = lives.saturating_add(1);
            }
        }
        self.nodes().saturating_mul(lives)
    }
}
