ghost use Rattle.std.specs.Prelude.{◌≡◌, ◌≤◌};
ghost use Rattle.net_base.specs.Peer.{backoff_of};

use crate::Addr;

/// How close a peer is: known, connected or used.
#[derive(Clone, Copy, PartialEq, Eq)]
pub enum Temp {
    Cold,
    Warm,
    Hot,
}

/// A peer that the node knows.
#[derive(Clone, Copy, PartialEq, Eq)]
pub struct Peer {
    pub addr: Addr,
    /// A big ledger peer. Every other peer is ordinary.
    pub big: bool,
    pub temp: Temp,
    /// How often it failed since it was last connected, at most 65,535.
    pub failures: u64,
    /// The moment before which it is not dialed.
    pub not_before: u64,
    /// The moment before which it is not asked for addresses.
    pub share_next: u64,
}

/// How long a peer is left alone after so many failures in a row: this project's own.
pub fn backoff_delay(base: u64, failures: u64) -> u64
    requires some { 1 ≤ failures }
    requires interval { base ≤ 86_400_000 }
    ensures { result ≡ backoff_of base failures }
{
    base << (failures - 1).min(5)
}
