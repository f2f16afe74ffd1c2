//! The nodes have addresses one behind another: node 0 is 10.0.0.1:3001.

use net_base::{Addr, Ip};

// 10.0.0.1
const FIRST: u32 = 0x0a00_0001;

const PORT: u16 = 3001;

/// The address of a node. There are far fewer nodes than addresses.
pub(crate) fn address_of(node: usize) -> Addr {
    let place = u32::try_from(node).unwrap_or(0);
    Addr {
        ip: Ip::V4(FIRST.wrapping_add(place)),
        port: PORT,
    }
}

/// The place of the node that an address would be of. No node has the greatest.
pub(crate) fn place_of(addr: Addr) -> usize {
    match addr.ip {
        Ip::V4(ip) if addr.port == PORT && ip >= FIRST => (ip - FIRST) as usize,
        _ => usize::MAX,
    }
}
