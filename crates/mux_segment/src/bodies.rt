ghost use Rattle.std.specs.Prelude.{◌≡◌, ◌≤◌, ◌++◌, length, drop, map, IfOk};
ghost use Rattle.cbor_items.specs.Scan.{scan_of};
ghost use Rattle.mux_segment.specs.Items.{taken_of};
ghost use Rattle.mux_segment.specs.Stream.{item_of};
ghost use Rattle.mux_segment.specs.Steps.{Adds, IsNext, next_of};

use crate::stopped::Stopped;
use crate::waiting::Waiting;
use crate::{CutFault, PackedItems};
use cbor_items::{Scan, first_item};
use std::alloc::Global;

/// Takes the whole items off what waits and the payload behind it, and gives what waits then.
pub(crate) fn take_payload(
    alloc: Global,
    side: u8,
    id: u16,
    limit: usize,
    waiting: Waiting,
    payload: &[u8],
    items: &mut PackedItems,
) -> Result<Waiting, Stopped>
    ensures items { let t = taken_of limit (waiting ++ payload.now) in Adds result items.old items.new (map (item_of side id) t.bodies) t.fault }
    ensures left { IfOk result (λ left. left ≡ (taken_of limit (waiting ++ payload.now)).left) }
{
    // where nothing waits the items are taken where they lie
    if waiting.as_slice().is_empty() {
        return take_alone(alloc, side, id, limit, payload, items);
    }
    let mut waiting = waiting;
    let first = waiting.extend(payload)?;
    let count = take_items(side, id, limit, waiting.as_slice(), first, items)?;
    match count {
        0 => Ok(waiting),
        _ => Ok(Waiting::from_slice(alloc, &waiting.as_slice()[count..])?),
    }
}

fn take_alone(
    alloc: Global,
    side: u8,
    id: u16,
    limit: usize,
    payload: &[u8],
    items: &mut PackedItems,
) -> Result<Waiting, Stopped>
    ensures items { let t = taken_of limit payload.now in Adds result items.old items.new (map (item_of side id) t.bodies) t.fault }
    ensures left { IfOk result (λ left. left ≡ (taken_of limit payload.now).left) }
{
    let first = first_item(payload);
    let count = take_items(side, id, limit, payload, first, items)?;
    Ok(Waiting::from_slice(alloc, &payload[count..])?)
}

// Takes the whole items off the front of a part, of which the first was scanned, and says how many bytes they are.
fn take_items(
    side: u8,
    id: u16,
    limit: usize,
    part: &[u8],
    first: Scan,
    items: &mut PackedItems,
) -> Result<usize, Stopped>
    requires { first ≡ scan_of part.now }
    ensures items { let t = taken_of limit part.now in Adds result items.old items.new (map (item_of side id) t.bodies) t.fault }
    ensures left { IfOk result (λ count. (count ≤ length part.now) × (drop count part.now ≡ (taken_of limit part.now).left)) }
{
    let mut rest = part;
    let mut scan = first;
    while let Some(size) = next_item_of(limit, rest, scan)? {
        let (body, after) = rest.split_at(size);
        items.push(side, id, body)?;
        rest = after;
        scan = first_item(rest);
    }
    Ok(part.len() - rest.len())
}

// The size of the item at the front, by its scan, or None where it is not whole.
fn next_item_of(limit: usize, part: &[u8], scan: Scan) -> Result<Option<usize>, Stopped>
    ensures { IsNext result scan limit part.now }
{
    match next_item(limit, part, scan) {
        Ok(next) => Ok(next),
        Err(fault) => Err(Stopped::Fault(fault)),
    }
}

/// The size of the item at the front of a part, by the scan of the part, or None where it is not whole yet. A fault where
/// no item begins so, or where it has more bytes than the limit.
pub fn next_item(limit: usize, part: &[u8], scan: Scan) -> Result<Option<usize>, CutFault>
    ensures { result ≡ next_of scan limit part.now }
{
    match scan {
        Scan::Whole(size) if size <= limit => Ok(Some(size)),
        Scan::More if part.len() < limit => Ok(None),
        Scan::Whole(_) | Scan::More => Err(CutFault::TooLong),
        Scan::Bad => Err(CutFault::Bad),
        Scan::Deep => Err(CutFault::Deep),
    }
}
