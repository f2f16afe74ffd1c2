//! What comes of the bytes of one client: its segments in order, until it is closed.

ghost use Rattle.std.specs.Prelude.{◌≡◌, ◌≤◌, ◌++◌, [], ℕ, drop, length, IfOk, IfSome, IsTrue, OnOk};
ghost use Rattle.std.specs.Option.{option_map};
ghost use Rattle.mux_segment.specs.Segment.{cut_of};
ghost use Rattle.local_clients.specs.Hearing.{goes_on, heard};
ghost use Rattle.local_clients.specs.declared.context.Context.{Context};
ghost use Rattle.local_clients.specs.declared.phase.Phase.TheVariants.{Open};

use crate::ClientActions;
use crate::context::Context;
use crate::hearing::{hear_segment, is_passed_over};
use crate::phase::Phase;
use mux_segment::{behind, split_segment};
use net_base::{Octets, OutOfMemory};
use std::alloc::Global;

/// How far a client comes by new bytes behind the rest of its stream, and the rest that is left then. None where it is
/// closed.
pub(crate) fn hear(
    alloc: Global,
    context: &Context,
    phase: Phase,
    rest: Octets,
    bytes: &[u8],
    actions: &mut ClientActions,
) -> Result<Option<(Phase, Octets)>, OutOfMemory>
    ensures phase { IfOk result (λ read. option_map (λ r. r.0) read ≡ (heard context.now phase (cut_of (rest ++ bytes.now)).segments).phase) }
    ensures rest { IfOk result (λ read. IfSome read (λ r. r.1 ≡ (cut_of (rest ++ bytes.now)).rest)) }
    ensures actions { OnOk result (actions.new ≡ actions.old ++ (heard context.now phase (cut_of (rest ++ bytes.now)).segments).actions) }
{
    // where nothing waits the segments are heard where they lie
    if rest.as_slice().is_empty() {
        return hear_alone(alloc, context, phase, bytes, actions);
    }
    let mut stream = rest;
    stream.extend_from_slice(bytes)?;
    match hear_segments(alloc, context, phase, stream.as_slice(), actions)? {
        Some((phase, count)) => Ok(Some((phase, behind(alloc, stream, count)?))),
        None => Ok(None),
    }
}

fn hear_alone(
    alloc: Global,
    context: &Context,
    phase: Phase,
    bytes: &[u8],
    actions: &mut ClientActions,
) -> Result<Option<(Phase, Octets)>, OutOfMemory>
    ensures phase { IfOk result (λ read. option_map (λ r. r.0) read ≡ (heard context.now phase (cut_of bytes.now).segments).phase) }
    ensures rest { IfOk result (λ read. IfSome read (λ r. r.1 ≡ (cut_of bytes.now).rest)) }
    ensures actions { OnOk result (actions.new ≡ actions.old ++ (heard context.now phase (cut_of bytes.now).segments).actions) }
{
    match hear_segments(alloc, context, phase, bytes, actions)? {
        Some((phase, count)) => Ok(Some((phase, Octets::from_slice(alloc, &bytes[count..])?))),
        None => Ok(None),
    }
}

/// The bytes are whole segments that an open client may send, and that are passed over.
pub(crate) fn are_passed_over(bytes: &[u8]) -> bool
    ensures segments { IsTrue result → (context : Context) (version : ℕ) → heard context (Open version) (cut_of bytes.now).segments ≡ goes_on (Open version) }
    ensures rest { IsTrue result → (cut_of bytes.now).rest ≡ [] }
{
    let mut rest = bytes;
    while let Some((header, _, after)) = split_segment(rest) {
        if !is_passed_over(&header) {
            return false;
        }
        rest = after;
    }
    rest.is_empty()
}

// How far a client comes by the whole segments at the front of a stream, and how many bytes these are.
fn hear_segments(
    alloc: Global,
    context: &Context,
    phase: Phase,
    stream: &[u8],
    actions: &mut ClientActions,
) -> Result<Option<(Phase, usize)>, OutOfMemory>
    ensures phase { IfOk result (λ read. option_map (λ r. r.0) read ≡ (heard context.now phase (cut_of stream.now).segments).phase) }
    ensures rest { IfOk result (λ read. IfSome read (λ r. (r.1 ≤ length stream.now) × (drop r.1 stream.now ≡ (cut_of stream.now).rest))) }
    ensures actions { OnOk result (actions.new ≡ actions.old ++ (heard context.now phase (cut_of stream.now).segments).actions) }
{
    let mut phase = phase;
    let mut rest = stream;
    while let Some((header, payload, after)) = split_segment(rest) {
        match hear_segment(alloc, context, phase, &header, payload, actions)? {
            Some(next) => phase = next,
            None => return Ok(None),
        }
        rest = after;
    }
    Ok(Some((phase, stream.len() - rest.len())))
}
