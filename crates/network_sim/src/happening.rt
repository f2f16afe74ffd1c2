use crate::link::Side;
use net_base::{Job, Octets};
use network_scenario::{Leaving, Parting};

/// What happens in the network.
#[derive(Drop)]
pub(crate) enum Happening {
    /// A node begins.
    Begin(usize),
    /// A node looks at its targets, in this life of it.
    Tick(usize, u64),
    /// A dial reaches the other side.
    Connect(u64),
    /// The dialer hears that its socket is open, or that it is not.
    Dialed(u64, bool),
    Arrive(u64, Side, Octets),
    /// An end hears that the other one has closed.
    Closed(u64, Side),
    /// A question for root peers is answered, in this life of the node.
    Roots(usize, u64, Job),
    /// A node accepts again.
    Resume(usize, u64),
    /// The network falls apart; and is whole again.
    Part(Parting),
    Heal,
    /// Nodes leave.
    Leave(Leaving),
    Report,
}
