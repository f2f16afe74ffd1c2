ghost use Rattle.std.specs.Prelude.{◌≡◌, ◌+◌, ◌≤◌, ◌<◌, ◌^◌, None, Some, true, length, IfOk, IfSome, MatchOption};
ghost use Rattle.node_world.specs.Segments.{spoken, heard, begins_asking, alive_reply};

use mux_segment::{Header, read_header, write_header};
use net_base::{Octets, OutOfMemory};
use std::alloc::Global;

// How many bytes stand before a payload.
const HEADER_SIZE: usize = 8;

// Versions 13 and 14, each with the network magic 42, both directions, peer sharing, and no query.
pub(crate) const PROPOSAL: [u8; 17] = [
    0x82, 0x00, 0xa2, 0x0d, 0x84, 0x18, 0x2a, 0xf4, 0x01, 0xf4, 0x0e, 0x84, 0x18, 0x2a, 0xf4, 0x01,
    0xf4,
];

// Version 14, with the same.
pub(crate) const ACCEPTANCE: [u8; 9] = [0x83, 0x01, 0x0e, 0x84, 0x18, 0x2a, 0xf4, 0x01, 0xf4];

// A keep-alive with the cookie 5.
pub(crate) const ALIVE_WITH_FIVE: [u8; 3] = [0x82, 0x00, 0x05];

// No block is in common, and the chain is empty.
pub(crate) const NO_INTERSECTION: [u8; 5] = [0x82, 0x06, 0x82, 0x80, 0x00];

/// A payload in one segment, at time 0.
pub(crate) fn spoken(
    alloc: Global,
    side: u8,
    id: u16,
    payload: &[u8],
) -> Result<Octets, OutOfMemory>
    requires side { side ≤ 1 }
    requires id { id < 2 ^ 15 }
    requires size { length payload.now < 2 ^ 16 }
    ensures value { IfOk result (λ bytes. bytes ≡ spoken side id payload.now) }
    ensures size { IfOk result (λ bytes. length bytes ≡ 8 + length payload.now) }
{
    let header = Header {
        time: 0,
        side,
        id,
        size: payload.len() as u16,
    };
    let room = Vec::with_capacity(alloc, HEADER_SIZE + payload.len())?;
    let mut bytes = Octets::from_vec(room);
    bytes.extend_from_slice(&write_header(&header))?;
    bytes.extend_from_slice(payload)?;
    Ok(bytes)
}

/// The segment that the bytes are, where they are one and no more.
pub(crate) fn heard(bytes: &[u8]) -> Option<(Header, &[u8])>
    ensures value { MatchOption result (heard bytes.now ≡ None) (λ s. heard bytes.now ≡ Some (record { header = s.0; payload = s.1.now })) }
    ensures size { IfSome result (λ s. 8 + length s.1.now ≡ length bytes.now) }
{
    let (front, payload) = bytes.split_first_chunk::<8>()?;
    let header = read_header(*front);
    if usize::from(header.size) == payload.len() {
        Some((header, payload))
    } else {
        None
    }
}

/// The reply to a keep-alive.
pub(crate) fn reply_alive(alloc: Global, payload: &[u8]) -> Result<Octets, OutOfMemory>
    requires { begins_asking payload.now ≡ true }
    ensures value { IfOk result (λ reply. reply ≡ alive_reply payload.now) }
    ensures size { IfOk result (λ reply. length reply ≡ length payload.now) }
{
    let mut reply = Octets::from_vec(Vec::with_capacity(alloc, payload.len())?);
    reply.extend_from_slice(&[0x82, 0x01])?;
    reply.extend_from_slice(&payload[2..])?;
    Ok(reply)
}
