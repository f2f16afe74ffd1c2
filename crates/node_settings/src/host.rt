ghost use Rattle.std.specs.Prelude.{◌≡◌};
ghost use Rattle.trace_text.specs.Addresses.{octets_of};
ghost use Rattle.node_settings.specs.Host.{has_dot, ipv6_of, ip_of};

use net_base::Ip;
use std::net::{Ipv4Addr, Ipv6Addr};

/// The address that a host's text stands for: `localhost`, or an address of either family.
pub(crate) fn read_ip(text: &[u8]) -> Option<Ip>
    ensures { result ≡ ip_of text.now }
{
    if text == b"localhost".as_slice() {
        return Some(Ip::V4(0x7f00_0001));
    }
    if let Some(ip) = read_ipv4(text) {
        return Some(Ip::V4(ip));
    }
    let ip = read_ipv6(text)?;
    Some(Ip::V6(ip))
}

fn read_ipv4(text: &[u8]) -> Option<u32>
    ensures { result ≡ octets_of text.now }
{
    match Ipv4Addr::parse_ascii(text) {
        Ok(ip) => Some(ip.to_bits()),
        Err(_) => None,
    }
}

fn read_ipv6(text: &[u8]) -> Option<u128>
    ensures { result ≡ ipv6_of text.now }
{
    // A tail in the dotted form of IPv4 is no address here.
    if has_dot(text) {
        return None;
    }
    match Ipv6Addr::parse_ascii(text) {
        Ok(ip) => Some(ip.to_bits()),
        Err(_) => None,
    }
}

fn has_dot(text: &[u8]) -> bool
    ensures { result ≡ has_dot text.now }
{
    text.contains(&b'.')
}
