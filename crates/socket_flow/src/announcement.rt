//! How a dialer tells the address at which it listens, before its first segment.
ghost use Rattle.std.specs.Prelude.{◌≡◌, ◌≤◌, length, IfOk};
ghost use Rattle.socket_flow.specs.Announcement.{announced, announced_ip, announced_size as size_of, ip_of as ip_told, address_of as told, whole_of, hearing};
ghost use Rattle.socket_flow.specs.Talk.{greeting_by};

use crate::terms::Terms;
use net_base::{Addr, Ip, Octets, OutOfMemory};
use std::alloc::Global;

/// What a dialer says first: its address, or nothing.
pub(crate) fn greeting_of(alloc: Global, terms: Terms) -> Result<Octets, OutOfMemory>
    ensures said { IfOk result (λ bytes. bytes ≡ greeting_by terms) }
    ensures size { IfOk result (λ bytes. length bytes ≤ 19) }
{
    if terms.announce {
        announcement(alloc, terms.own)
    } else {
        Ok(Octets::new(alloc))
    }
}

// What a dialer with this address says.
fn announcement(alloc: Global, addr: Addr) -> Result<Octets, OutOfMemory>
    ensures said { IfOk result (λ bytes. bytes ≡ announced addr) }
    ensures size { IfOk result (λ bytes. length bytes ≤ 19) }
{
    let mut bytes = ip_announcement(alloc, addr.ip)?;
    bytes.extend_from_slice(&addr.port.to_be_bytes())?;
    Ok(bytes)
}

fn ip_announcement(alloc: Global, ip: Ip) -> Result<Octets, OutOfMemory>
    ensures said { IfOk result (λ bytes. bytes ≡ announced_ip ip) }
    ensures size { IfOk result (λ bytes. length bytes ≤ 17) }
{
    let mut bytes = Octets::new(alloc);
    match ip {
        Ip::V4(ip) => {
            bytes.push(4)?;
            bytes.extend_from_slice(&ip.to_be_bytes())?;
        }
        Ip::V6(ip) => {
            bytes.push(6)?;
            bytes.extend_from_slice(&ip.to_be_bytes())?;
        }
    }
    Ok(bytes)
}

/// What was heard of an announcement.
#[derive(Clone, Copy, PartialEq, Eq)]
pub(crate) enum Heard {
    /// Its front, or nothing yet.
    Front,
    Whole(Addr),
    /// Bytes that no announcement begins with.
    Else,
}

/// What bytes are that stand at the front of a stream, and are no more than their announcement has.
pub(crate) fn read_announcement(bytes: &[u8]) -> Heard
    ensures { result ≡ hearing bytes.now }
{
    match announced_size(bytes) {
        Some(size) if bytes.len() < size => Heard::Front,
        Some(_) => whole_or_else(address_of(bytes)),
        None => Heard::Else,
    }
}

fn whole_or_else(addr: Option<Addr>) -> Heard
    ensures { result ≡ whole_of addr }
{
    match addr {
        Some(addr) => Heard::Whole(addr),
        None => Heard::Else,
    }
}

/// How many bytes the announcement has that begins so. None is where there is no such one.
pub(crate) fn announced_size(front: &[u8]) -> Option<usize>
    ensures { result ≡ size_of front.now }
{
    match front.first() {
        None | Some(4) => Some(7),
        Some(6) => Some(19),
        Some(_) => None,
    }
}

fn address_of(bytes: &[u8]) -> Option<Addr>
    ensures { result ≡ told bytes.now }
{
    let (family, rest) = bytes.split_first()?;
    let (ip, port) = rest.split_last_chunk::<2>()?;
    Some(Addr {
        ip: ip_of(*family, ip)?,
        port: u16::from_be_bytes(*port),
    })
}

fn ip_of(family: u8, bytes: &[u8]) -> Option<Ip>
    ensures { result ≡ ip_told family bytes.now }
{
    match family {
        4 if bytes.len() == 4 => Some(Ip::V4(u32::from_be_bytes(*bytes.first_chunk()?))),
        6 if bytes.len() == 16 => Some(Ip::V6(u128::from_be_bytes(*bytes.first_chunk()?))),
        _ => None,
    }
}
