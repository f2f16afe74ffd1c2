use net_base::{AddrList, GroupList};

/// What the topology file says.
#[derive(PartialEq, Drop)]
pub struct Topology {
    /// The local root peers, in file order.
    pub groups: GroupList,
    /// The public root peers.
    pub publics: AddrList,
    /// How many access points are named by something else than an address.
    pub unresolved: u64,
}
