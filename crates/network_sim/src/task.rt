use net_base::{Event, Settings, Targets};
use network_scenario::Leaving;

/// What is left to be done by those that step for nodes.
#[derive(Drop)]
pub(crate) enum Task {
    /// A node's engine is given an event, behind the moment where that is a later one than it was shown.
    Give(usize, Option<u64>, Event),
    Begin(Beginning),
    /// A node's engine ends.
    End(usize),
}

/// An engine that begins for a node, and what it hears first.
#[derive(Drop)]
pub(crate) struct Beginning {
    pub node: usize,
    /// Which of the node's lives it is.
    pub life: u64,
    pub settings: Settings,
    pub targets: Targets,
    /// Its local roots, where it has any.
    pub roots: Option<Event>,
}

/// What follows on the last task, before anything else happens.
#[derive(Clone, Copy)]
pub(crate) enum After {
    Nothing,
    /// It is noted what of its targets a node has reached.
    Look(usize),
    /// A node accepts those that wait, until accepting pauses.
    Welcome(usize),
    /// Nodes leave, from this one on.
    Leave(Leaving, usize),
}
