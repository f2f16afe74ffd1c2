ghost use Rattle.std.specs.Prelude.{◌≡◌, ◌≢◌, Err, ◌≤◌, ◌<◌, ◌++◌, length, drop, IfOk, IfSome, OnOk, MatchOption, None, Some};
ghost use Rattle.mux_segment.specs.Segment.{Segment, segment_at, cut_of};
ghost use Rattle.mux_segment.specs.Protocols.{node_limits};
ghost use Rattle.mux_segment.specs.Stream.{segment_decoded, decoded};
ghost use Rattle.mux_segment.specs.Steps.{Adds, segment_with};
ghost use Rattle.mux_segment.specs.Kept.{AreKept};

use crate::bodies::take_payload;
use crate::bytes::behind;
use crate::parts::Parts;
use crate::stopped::Stopped;
use crate::{CutFault, Header, PackedItems, read_header};
use net_base::{Octets, protocol};
use std::alloc::Global;

/// Takes the items of the whole segments of a stream, which is a rest and new bytes: the rest that it leaves.
pub(crate) fn take_stream(
    alloc: Global,
    rest: Octets,
    bytes: &[u8],
    parts: &mut Parts,
    items: &mut PackedItems,
) -> Result<Octets, Stopped>
    requires { AreKept node_limits parts.old }
    ensures items { let d = decoded node_limits parts.old (cut_of (rest ++ bytes.now)).segments in Adds result items.old items.new d.items d.fault }
    ensures parts { OnOk result (parts.new ≡ (decoded node_limits parts.old (cut_of (rest ++ bytes.now)).segments).parts) }
    ensures rest { IfOk result (λ left. left ≡ (cut_of (rest ++ bytes.now)).rest) }
{
    // where no rest is the segments are taken where they lie
    if rest.as_slice().is_empty() {
        let count = take_segments(alloc, bytes, parts, items)?;
        return Ok(Octets::from_slice(alloc, &bytes[count..])?);
    }
    let mut stream = rest;
    stream.extend_from_slice(bytes)?;
    let count = take_segments(alloc, stream.as_slice(), parts, items)?;
    Ok(behind(alloc, stream, count)?)
}

// Takes the items of the whole segments at the front of a stream, and says how many bytes these are.
#[inline(always)]
fn take_segments(
    alloc: Global,
    stream: &[u8],
    parts: &mut Parts,
    items: &mut PackedItems,
) -> Result<usize, Stopped>
    requires { AreKept node_limits parts.old }
    ensures items { let d = decoded node_limits parts.old (cut_of stream.now).segments in Adds result items.old items.new d.items d.fault }
    ensures parts { OnOk result (parts.new ≡ (decoded node_limits parts.old (cut_of stream.now).segments).parts) }
    ensures rest { IfOk result (λ count. (count ≤ length stream.now) × (drop count stream.now ≡ (cut_of stream.now).rest)) }
{
    let mut rest = stream;
    while let Some((header, payload, after)) = split_segment(rest) {
        take_segment(alloc, header, payload, parts, items)?;
        rest = after;
    }
    Ok(stream.len() - rest.len())
}

/// The header and the payload of the segment at the front, and the bytes behind it. None where no whole segment is there.
pub fn split_segment(bytes: &[u8]) -> Option<(Header, &[u8], &[u8])>
    ensures { MatchOption result (segment_at bytes.now ≡ None)
        (λ read. segment_at bytes.now ≡ Some (segment_with read.0 read.1.now, read.2.now)) }
{
    let (front, rest) = bytes.split_first_chunk::<8>()?;
    let header = read_header(*front);
    let size = usize::from(header.size);
    if rest.len() < size {
        return None;
    }
    let (payload, rest) = rest.split_at(size);
    Some((header, payload, rest))
}

// Takes the items that a segment makes whole.
fn take_segment(
    alloc: Global,
    header: Header,
    payload: &[u8],
    parts: &mut Parts,
    items: &mut PackedItems,
) -> Result<(), Stopped>
    requires { AreKept node_limits parts.old }
    ensures items { let d = segment_decoded node_limits parts.old (segment_with header payload.now) in Adds result items.old items.new d.items d.fault }
    ensures parts { OnOk result (parts.new ≡ (segment_decoded node_limits parts.old (segment_with header payload.now)).parts) }
    ensures memory { result ≡ Err Stopped.NoMemory → node_limits header.id ≢ None }
{
    let Some(limit) = limit_of(header.id) else {
        return Err(Stopped::Fault(CutFault::UnknownId));
    };
    if payload.is_empty() {
        return Ok(());
    }
    let waiting = parts.take(alloc, header.side, header.id);
    let left = take_payload(
        alloc,
        header.side,
        header.id,
        limit,
        waiting,
        payload,
        items,
    )?;
    parts.put(header.side, header.id, left)?;
    Ok(())
}

/// How many bytes an item of a protocol may have. None where the protocol is not known.
pub(crate) fn limit_of(id: u16) -> Option<usize>
    ensures limit { result ≡ node_limits id }
    ensures some { IfSome result (λ limit. 0 < limit) }
{
    match id {
        protocol::HANDSHAKE => Some(5760),
        protocol::CHAIN_SYNC
        | protocol::BLOCK_FETCH
        | protocol::TX_SUBMISSION
        | protocol::KEEP_ALIVE
        | protocol::PEER_SHARING => Some(65_535),
        _ => None,
    }
}
