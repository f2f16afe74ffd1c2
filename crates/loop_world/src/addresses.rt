//! Addresses as sockets have them.

use net_base::{Addr, Ip};
use std::net::{IpAddr, Ipv4Addr, Ipv6Addr, SocketAddr};

pub(crate) fn socket_addr(addr: Addr) -> SocketAddr {
    let ip = match addr.ip {
        Ip::V4(ip) => IpAddr::V4(Ipv4Addr::from_bits(ip)),
        Ip::V6(ip) => IpAddr::V6(Ipv6Addr::from_bits(ip)),
    };
    SocketAddr::new(ip, addr.port)
}

pub(crate) fn addr_of(addr: SocketAddr) -> Addr {
    let ip = match addr.ip() {
        IpAddr::V4(ip) => Ip::V4(ip.to_bits()),
        IpAddr::V6(ip) => Ip::V6(ip.to_bits()),
    };
    Addr {
        ip,
        port: addr.port(),
    }
}
