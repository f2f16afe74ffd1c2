use crate::LocalLease;
use net_base::StateName;

/// What becomes of the wish to use the connection of an address.
#[derive(Drop)]
pub enum Acquire {
    /// It is in local use from now on.
    Leased(LocalLease),
    /// No live connection has the address.
    NoSuch,
    /// The live connection of the address, whose state is named, is not to be had.
    NotReusable(StateName),
}
