ghost use Rattle.std.specs.Prelude.{◌≡◌, ◌≤◌, ◌<◌, ◌^◌, ◌++◌, length, take, drop, IfOk, OnOk};
ghost use Rattle.mux_segment.specs.Segment.{segment_bytes};
ghost use Rattle.mux_segment.specs.Frame.{payload_limit, time_of, segment_of, frame_of};

use crate::{Header, write_header};
use net_base::{Octets, OutOfMemory};
use std::alloc::Global;

// How many bytes of payload a written segment has at most.
const PAYLOAD_LIMIT: usize = 12_288;

// How many bytes stand before it.
const HEADER_SIZE: usize = 8;

/// A payload as segments of one side, protocol and moment, in milliseconds: each but the last has 12,288 bytes
/// of payload. An empty payload is one segment of size 0.
pub fn frame(
    alloc: Global,
    side: u8,
    id: u16,
    now: u64,
    payload: &[u8],
) -> Result<Octets, OutOfMemory>
    requires side { side ≤ 1 }
    requires id { id < 2 ^ 15 }
    ensures { IfOk result (λ bytes. bytes ≡ frame_of side id now payload.now) }
{
    let time = time_of(now);
    let (piece, mut rest) = split_piece(payload);
    let room = Vec::with_capacity(alloc, HEADER_SIZE + piece.len())?;
    let mut out = Octets::from_vec(room);
    push_segment(&mut out, side, id, time, piece)?;
    while !rest.is_empty() {
        let (piece, after) = split_piece(rest);
        push_segment(&mut out, side, id, time, piece)?;
        rest = after;
    }
    Ok(out)
}

// The low 32 bits of a moment in microseconds.
fn time_of(now: u64) -> u32
    ensures { result ≡ time_of now }
{
    (u128::from(now) * 1000 % 0x1_0000_0000) as u32
}

// A piece of the payload, and what stands behind it.
fn split_piece(payload: &[u8]) -> (&[u8], &[u8])
    ensures piece { result.0.now ≡ take payload_limit payload.now }
    ensures rest { result.1.now ≡ drop payload_limit payload.now }
    ensures size { length result.0.now ≤ payload_limit }
{
    payload.split_at(PAYLOAD_LIMIT.min(payload.len()))
}

fn push_segment(
    out: &mut Octets,
    side: u8,
    id: u16,
    time: u32,
    payload: &[u8],
) -> Result<(), OutOfMemory>
    requires side { side ≤ 1 }
    requires id { id < 2 ^ 15 }
    requires size { length payload.now < 2 ^ 16 }
    ensures { OnOk result (out.new ≡ out.old ++ segment_bytes (segment_of side id time payload.now)) }
{
    let header = Header {
        time,
        side,
        id,
        size: payload.len() as u16,
    };
    out.extend_from_slice(&write_header(&header))?;
    out.extend_from_slice(payload)?;
    Ok(())
}
