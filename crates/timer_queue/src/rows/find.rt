ghost use Rattle.std.specs.Prelude.{◌≡◌, ◌≤◌, ◌<◌, ◌+◌, true, is_some, IfSome, length, option_map, slice_get};
ghost use Rattle.std.specs.Bool.{then_some};
ghost use Rattle.timer_queue.specs.Kept.{AreRising};
ghost use Rattle.timer_queue.specs.Rows.{row_at, found_at, place_at};

use super::Row;
use net_base::Cid;

// How many rows of a rising list are below an id.
pub fn place_of(rows: &[Row], cid: Cid) -> usize
    requires { AreRising rows.now }
    ensures value { result ≡ place_at cid rows.now }
    ensures bound { result ≤ length rows.now }
{
    if is_behind(rows, cid) {
        return rows.len();
    }
    match place_by_last(rows, cid) {
        Some(place) => place,
        None => rows.partition_point(|row| row.cid < cid),
    }
}

// The same of an id that has a row, where each id between it and the last one has.
fn place_by_last(rows: &[Row], cid: Cid) -> Option<usize>
    requires { AreRising rows.now }
    ensures { IfSome result (λ place. place ≡ place_at cid rows.now × place < length rows.now) }
{
    let last = rows.last()?;
    let place = place_from(rows.len(), last.cid, cid)?;
    if is_at(rows, place, cid) {
        Some(place)
    } else {
        None
    }
}

/// Where the row of an id stands among so many in order of id, if it is not behind the last one, whose id is told, and each id
/// between the two has a row, as most have that came of late. A guess, to be looked at before a search.
#[inline(always)]
pub fn place_from(count: usize, last: Cid, cid: Cid) -> Option<usize>
    ensures { IfSome result (λ place. place + 1 + last.0 ≡ count + cid.0) }
{
    let between = last.0.checked_sub(cid.0)? as usize;
    count.checked_sub(1)?.checked_sub(between)
}

// Whether an id is above all. Ids rise, so one that comes is.
fn is_behind(rows: &[Row], cid: Cid) -> bool
    requires { AreRising rows.now }
    ensures { result ≡ true → place_at cid rows.now ≡ length rows.now }
{
    match rows.last() {
        Some(last) => last.cid < cid,
        None => true,
    }
}

// The place of the row of an id.
pub fn place_in(rows: &[Row], cid: Cid) -> Option<usize>
    requires { AreRising rows.now }
    ensures { result ≡ then_some (is_some (row_at cid rows.now)) (place_at cid rows.now) }
{
    let place = place_of(rows, cid);
    is_at(rows, place, cid).then_some(place)
}

// Whether the row at a place is that of an id.
fn is_at(rows: &[Row], place: usize, cid: Cid) -> bool
    ensures { result ≡ is_some (found_at cid (slice_get rows.now place)) }
{
    match rows.get(place) {
        Some(row) => row.cid == cid,
        None => false,
    }
}

// The row of an id.
pub fn row_in(rows: &[Row], cid: Cid) -> Option<&Row>
    requires { AreRising rows.now }
    ensures { option_map (λ r. r.now) result ≡ row_at cid rows.now }
{
    let row = rows.get(place_of(rows, cid))?;
    (row.cid == cid).then_some(row)
}
