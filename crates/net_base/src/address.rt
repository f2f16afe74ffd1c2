ghost use Rattle.std.specs.Prelude.{◌≡◌, ◌+◌, ◌*◌, ◌^◌, ◌<◌, ◌||◌, ◌&&◌, nat_lt};
ghost use Rattle.net_base.specs.Address.{key_of, folded_ip, address_below, same_address};

use crate::{Cid, Sequence};

/// An IP address of either family. Every IPv4 address comes before every IPv6 address.
#[derive(Clone, Copy, PartialEq, Eq, PartialOrd, Ord)]
pub enum Ip {
    /// The first octet is the greatest byte.
    V4(u32),
    /// The first group is the greatest sixteen bits. An IPv4-mapped address is one of these.
    V6(u128),
}

/// Where a peer is reached. Ordered by `ip` and then `port`.
#[derive(Clone, Copy, PartialEq, Eq, PartialOrd, Ord)]
pub struct Addr {
    pub ip: Ip,
    pub port: u16,
}

/// Addresses one after another.
pub type AddrList = Sequence<Addr>;

impl Addr {
    /// The number by which picks are scored: this project's own. Two addresses may have one key.
    pub fn key(&self) -> u64
        ensures { result ≡ key_of self.now }
    {
        joined(folded(self.ip), self.port)
    }

    pub fn is_same(&self, other: &Addr) -> bool
        ensures { result ≡ same_address self.now other.now }
    {
        // what the derived comparisons say too, in more instructions: searches ask these at every step
        match (self.ip, other.ip) {
            (Ip::V4(ip), Ip::V4(than)) => ip == than && self.port == other.port,
            (Ip::V6(ip), Ip::V6(than)) => ip == than && self.port == other.port,
            _ => false,
        }
    }

    /// Every IPv4 address comes before every IPv6 address. Within a family it goes by `ip` and then `port`.
    pub fn is_before(&self, other: &Addr) -> bool
        ensures { result ≡ address_below self.now other.now }
    {
        match (self.ip, other.ip) {
            (Ip::V4(ip), Ip::V4(than)) => ip < than || (ip == than && self.port < other.port),
            (Ip::V4(_), Ip::V6(_)) => true,
            (Ip::V6(_), Ip::V4(_)) => false,
            (Ip::V6(ip), Ip::V6(than)) => ip < than || (ip == than && self.port < other.port),
        }
    }

    /// It is the other one, or comes before it.
    pub fn is_up_to(&self, other: &Addr) -> bool
        ensures { result ≡ (address_below self.now other.now || same_address self.now other.now) }
    {
        match (self.ip, other.ip) {
            (Ip::V4(ip), Ip::V4(than)) => ip < than || (ip == than && self.port <= other.port),
            (Ip::V4(_), Ip::V6(_)) => true,
            (Ip::V6(_), Ip::V4(_)) => false,
            (Ip::V6(ip), Ip::V6(than)) => ip < than || (ip == than && self.port <= other.port),
        }
    }

    /// It comes before the other one with their ids: by the addresses, and then by the ids.
    pub fn is_before_with(&self, cid: Cid, other: &Addr, other_cid: Cid) -> bool
        ensures { result ≡ (address_below self.now other.now || (same_address self.now other.now && nat_lt cid.0 other_cid.0)) }
    {
        self.is_before(other) || (self == other && cid < other_cid)
    }
}

// An address in 48 bits. The two halves of an IPv6 address are added.
fn folded(ip: Ip) -> u64
    ensures value { result ≡ folded_ip ip }
    ensures bound { result < 2 ^ 48 }
{
    match ip {
        Ip::V4(ip) => u64::from(ip),
        Ip::V6(ip) => {
            let high = ip / 18_446_744_073_709_551_616;
            let low = ip % 18_446_744_073_709_551_616;
            ((high + low) % 281_474_976_710_656) as u64
        }
    }
}

fn joined(folded: u64, port: u16) -> u64
    requires { folded < 2 ^ 48 }
    ensures { result ≡ folded * 65_536 + port }
{
    folded * 65_536 + u64::from(port)
}
