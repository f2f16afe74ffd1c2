use crate::LinkList;
use net_base::{BigTargets, Settings, Targets};

/// What the rules look at beside the peers, the groups and the public roots.
#[derive(Drop)]
pub struct View<'a> {
    /// Milliseconds.
    pub moment: u64,
    /// The word that decides between peers.
    pub word: u64,
    pub settings: Settings,
    /// The targets that hold at the moment.
    pub targets: Targets,
    /// Those of big ledger peers.
    pub big: BigTargets,
    pub links: LinkList<'a>,
}
