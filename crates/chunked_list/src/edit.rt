ghost use Rattle.std.specs.Prelude.{◌≡◌, ◌+◌, ◌-◌, ◌<◌, ◌≤◌, ◌^◌, ◌∷◌, [], ◌++◌, true, length, slice_index_or, slice_set, OnOk, OnErr, IfOk, IfSome};
ghost use Rattle.std.specs.List.{insert, remove};
ghost use Rattle.chunked_list.specs.Changes.{IsChangedAt};
ghost use Rattle.chunked_list.specs.Chunks.{items_in, joined, starts, AreChunks, AreFilled, CanJoin, IsInside, HasRoom, IsSplit, place_of};

use crate::change::Change;
use crate::chunk::{Chunk, FEW, HALF, JOINED, LIMIT};
use crate::first::{lower, raise};
use crate::spot::{Spot, halved, spot_of};
use net_base::OutOfMemory;
use std::alloc::AllocError;
use std::mem;

// Puts an item in before the one at a spot, where its chunk has room.
fn put<T: Drop>(
    chunks: &mut Vec<Chunk<T>>,
    firsts: &mut Vec<u32>,
    spot: Spot,
    item: T,
) -> Result<(), OutOfMemory>
    requires filled { AreFilled chunks.old.items }
    requires numbers { firsts.old.items ≡ starts 0 chunks.old.items }
    requires few { length (joined chunks.old.items) + 1 < 2 ^ 32 }
    requires inside { IsInside chunks.old.items spot }
    requires room { HasRoom chunks.old.items spot.chunk }
    ensures filled { AreFilled chunks.new.items }
    ensures numbers { firsts.new.items ≡ starts 0 chunks.new.items }
    ensures ok { OnOk result (joined chunks.new.items ≡ insert (joined chunks.old.items) (place_of chunks.old.items spot) item) }
    ensures err { OnErr result (joined chunks.new.items ≡ joined chunks.old.items) }
{
    chunks[spot.chunk].insert(spot.at, item)?;
    raise(firsts, spot.chunk + 1);
    Ok(())
}

// Makes room in the chunk of a spot: a full one is cut in two. The answer is the spot after that.
fn make_room<T: Drop>(
    chunks: &mut Vec<Chunk<T>>,
    firsts: &mut Vec<u32>,
    spot: Spot,
) -> Result<Spot, AllocError>
    requires filled { AreFilled chunks.old.items }
    requires numbers { firsts.old.items ≡ starts 0 chunks.old.items }
    requires few { length (joined chunks.old.items) < 2 ^ 32 }
    requires inside { IsInside chunks.old.items spot }
    ensures filled { AreFilled chunks.new.items }
    ensures numbers { firsts.new.items ≡ starts 0 chunks.new.items }
    ensures same { joined chunks.new.items ≡ joined chunks.old.items }
    ensures inside { IfOk result (λ s. IsInside chunks.new.items s) }
    ensures room { IfOk result (λ s. HasRoom chunks.new.items s.chunk) }
    ensures place { IfOk result (λ s. place_of chunks.new.items s ≡ place_of chunks.old.items spot) }
{
    if chunks[spot.chunk].items.len() < LIMIT {
        return Ok(spot);
    }
    firsts.try_reserve(1)?;
    split(chunks, spot.chunk)?;
    // there is room
    let _ = firsts.insert(spot.chunk + 1, firsts[spot.chunk] + HALF as u32);
    Ok(halved(spot))
}

// Cuts a full chunk in two.
fn split<T: Drop>(chunks: &mut Vec<Chunk<T>>, chunk: usize) -> Result<(), AllocError>
    requires there { chunk < length chunks.old.items }
    requires long { (d : _) → 16 ≤ length (items_in (slice_index_or chunks.old.items chunk d)) }
    ensures ok { OnOk result (IsSplit chunks.old.items chunk chunks.new.items) }
    ensures err { OnErr result (chunks.new.items ≡ chunks.old.items) }
{
    chunks.try_reserve(1)?;
    let high = chunks[chunk].items.split_off(HALF)?;
    // there is room
    let _ = chunks.insert(chunk + 1, Chunk { items: high });
    Ok(())
}

// The last chunk, where it has room for one more.
fn last_with_room<T>(chunks: &[Chunk<T>]) -> Option<usize>
    ensures last { IfSome result (λ i. i + 1 ≡ length chunks.now) }
    ensures room { IfSome result (λ i. HasRoom chunks.now i) }
{
    let last = chunks.len().checked_sub(1)?;
    (chunks[last].items.len() < LIMIT).then_some(last)
}

// Puts an item at the end of the last chunk.
fn push_within<T: Drop>(chunks: &mut Vec<Chunk<T>>, last: usize, item: T) -> Result<(), OutOfMemory>
    requires filled { AreFilled chunks.old.items }
    requires last { last + 1 ≡ length chunks.old.items }
    requires room { HasRoom chunks.old.items last }
    ensures filled { AreFilled chunks.new.items }
    ensures numbers { starts 0 chunks.new.items ≡ starts 0 chunks.old.items }
    ensures ok { OnOk result (joined chunks.new.items ≡ joined chunks.old.items ++ item ∷ []) }
    ensures err { OnErr result (joined chunks.new.items ≡ joined chunks.old.items) }
{
    chunks[last].push(item)
}

// Puts a chunk of one item behind the others, which have as many items as `len` says.
fn push_chunk<T: Drop>(
    chunks: &mut Vec<Chunk<T>>,
    firsts: &mut Vec<u32>,
    len: usize,
    item: T,
) -> Result<(), OutOfMemory>
    requires filled { AreFilled chunks.old.items }
    requires numbers { firsts.old.items ≡ starts 0 chunks.old.items }
    requires len { len ≡ length (joined chunks.old.items) }
    requires few { len < 2 ^ 32 }
    ensures filled { AreFilled chunks.new.items }
    ensures numbers { firsts.new.items ≡ starts 0 chunks.new.items }
    ensures ok { OnOk result (joined chunks.new.items ≡ joined chunks.old.items ++ item ∷ []) }
    ensures err { OnErr result (joined chunks.new.items ≡ joined chunks.old.items) }
{
    firsts.try_reserve(1)?;
    let mut items = Vec::new(*chunks.allocator());
    items.push(item)?;
    chunks.push(Chunk { items })?;
    // there is room
    let _ = firsts.push(len as u32);
    Ok(())
}

// Takes out the item at a spot. A chunk that gets empty goes.
fn take_out<T: Drop>(chunks: &mut Vec<Chunk<T>>, firsts: &mut Vec<u32>, spot: Spot) -> T
    requires filled { AreFilled chunks.old.items }
    requires numbers { firsts.old.items ≡ starts 0 chunks.old.items }
    requires inside { IsInside chunks.old.items spot }
    ensures filled { AreFilled chunks.new.items }
    ensures numbers { firsts.new.items ≡ starts 0 chunks.new.items }
    ensures value { result ≡ slice_index_or (joined chunks.old.items) (place_of chunks.old.items spot) result }
    ensures items { joined chunks.new.items ≡ remove (joined chunks.old.items) (place_of chunks.old.items spot) }
{
    let item = chunks[spot.chunk].items.remove(spot.at);
    lower(firsts, spot.chunk + 1);
    if chunks[spot.chunk].items.is_empty() {
        chunks.remove(spot.chunk);
        firsts.remove(spot.chunk);
    }
    item
}

// Joins the chunk at a place with the one behind it, where the two can be one.
fn join_next<T: Drop>(chunks: &mut Vec<Chunk<T>>, firsts: &mut Vec<u32>, place: usize)
    requires filled { AreFilled chunks.old.items }
    requires numbers { firsts.old.items ≡ starts 0 chunks.old.items }
    ensures filled { AreFilled chunks.new.items }
    ensures numbers { firsts.new.items ≡ starts 0 chunks.new.items }
    ensures same { joined chunks.new.items ≡ joined chunks.old.items }
{
    if !can_join(chunks, place) {
        return;
    }
    let mut next = chunks.remove(place + 1);
    firsts.remove(place + 1);
    // there is room
    let _ = chunks[place].items.append(&mut next.items);
}

// Whether the chunk at a place and the one behind it are small, and the first has the memory for both.
fn can_join<T>(chunks: &[Chunk<T>], place: usize) -> bool
    requires { AreFilled chunks.now }
    ensures { result ≡ true → CanJoin chunks.now place }
{
    if chunks.len().saturating_sub(1) <= place {
        return false;
    }
    let both = chunks[place].items.len() + chunks[place + 1].items.len();
    both <= JOINED && both <= chunks[place].items.capacity()
}

// Puts an item in the place of the one at a spot.
pub fn exchange<T: Drop>(chunks: &mut Vec<Chunk<T>>, spot: Spot, item: T) -> T
    requires filled { AreFilled chunks.old.items }
    requires inside { IsInside chunks.old.items spot }
    ensures filled { AreFilled chunks.new.items }
    ensures numbers { starts 0 chunks.new.items ≡ starts 0 chunks.old.items }
    ensures value { result ≡ slice_index_or (joined chunks.old.items) (place_of chunks.old.items spot) result }
    ensures items { joined chunks.new.items ≡ slice_set (joined chunks.old.items) (place_of chunks.old.items spot) item }
{
    mem::replace(&mut chunks[spot.chunk].items[spot.at], item)
}

// Puts an item in at a place of the list.
pub fn insert_at<T: Drop>(
    chunks: &mut Vec<Chunk<T>>,
    firsts: &mut Vec<u32>,
    place: usize,
    len: usize,
    item: T,
) -> Result<(), OutOfMemory>
    requires kept { AreChunks chunks.old.items firsts.old.items }
    requires len { len ≡ length (joined chunks.old.items) }
    requires few { len + 1 < 2 ^ 32 }
    requires upto { place ≤ len }
    ensures kept { AreChunks chunks.new.items firsts.new.items }
    ensures ok { OnOk result (joined chunks.new.items ≡ insert (joined chunks.old.items) place item) }
    ensures err { OnErr result (joined chunks.new.items ≡ joined chunks.old.items) }
{
    if place == len {
        return append(chunks, firsts, len, item);
    }
    let spot = spot_of(chunks, firsts, place);
    put_in(chunks, firsts, spot, item)
}

// Puts an item in at the end of the list, which has as many items as `len` says.
fn append<T: Drop>(
    chunks: &mut Vec<Chunk<T>>,
    firsts: &mut Vec<u32>,
    len: usize,
    item: T,
) -> Result<(), OutOfMemory>
    requires kept { AreChunks chunks.old.items firsts.old.items }
    requires len { len ≡ length (joined chunks.old.items) }
    requires few { len < 2 ^ 32 }
    ensures kept { AreChunks chunks.new.items firsts.new.items }
    ensures ok { OnOk result (joined chunks.new.items ≡ joined chunks.old.items ++ item ∷ []) }
    ensures err { OnErr result (joined chunks.new.items ≡ joined chunks.old.items) }
{
    match last_with_room(chunks) {
        Some(last) => push_within(chunks, last, item),
        None => push_chunk(chunks, firsts, len, item),
    }
}

// Puts an item in before the one at a spot.
fn put_in<T: Drop>(
    chunks: &mut Vec<Chunk<T>>,
    firsts: &mut Vec<u32>,
    spot: Spot,
    item: T,
) -> Result<(), OutOfMemory>
    requires filled { AreFilled chunks.old.items }
    requires numbers { firsts.old.items ≡ starts 0 chunks.old.items }
    requires few { length (joined chunks.old.items) + 1 < 2 ^ 32 }
    requires inside { IsInside chunks.old.items spot }
    ensures filled { AreFilled chunks.new.items }
    ensures numbers { firsts.new.items ≡ starts 0 chunks.new.items }
    ensures ok { OnOk result (joined chunks.new.items ≡ insert (joined chunks.old.items) (place_of chunks.old.items spot) item) }
    ensures err { OnErr result (joined chunks.new.items ≡ joined chunks.old.items) }
{
    let spot = make_room(chunks, firsts, spot)?;
    put(chunks, firsts, spot, item)
}

// Whether the chunk at a place has so few items that its neighbours are looked at for joining. So it is where the last
// chunk went.
fn has_few<T>(chunks: &[Chunk<T>], place: usize) -> bool {
    match chunks.get(place) {
        Some(chunk) => chunk.items.len() <= FEW,
        None => true,
    }
}

// Takes out the item at a place of the list.
pub fn remove_at<T: Drop>(chunks: &mut Vec<Chunk<T>>, firsts: &mut Vec<u32>, place: usize) -> T
    requires kept { AreChunks chunks.old.items firsts.old.items }
    requires inside { place < length (joined chunks.old.items) }
    ensures kept { AreChunks chunks.new.items firsts.new.items }
    ensures value { result ≡ slice_index_or (joined chunks.old.items) place result }
    ensures items { joined chunks.new.items ≡ remove (joined chunks.old.items) place }
{
    let spot = spot_of(chunks, firsts, place);
    let item = take_out(chunks, firsts, spot);
    if has_few(chunks, spot.chunk) {
        join_next(chunks, firsts, spot.chunk);
        join_next(chunks, firsts, spot.chunk.saturating_sub(1));
    }
    item
}

// Does something to the item at a spot, where it stands.
pub fn change_in<T: Drop, C: Change<T>>(
    chunks: &mut Vec<Chunk<T>>,
    spot: Spot,
    change: C,
) -> C::Answer
    requires filled { AreFilled chunks.old.items }
    requires inside { IsInside chunks.old.items spot }
    requires may { (d : T) → C.may change (slice_index_or (joined chunks.old.items) (place_of chunks.old.items spot) d) }
    ensures filled { AreFilled chunks.new.items }
    ensures numbers { starts 0 chunks.new.items ≡ starts 0 chunks.old.items }
    ensures changed { IsChangedAt (λ x y. C.does change x y result) (place_of chunks.old.items spot) (joined chunks.old.items) (joined chunks.new.items) }
{
    change.apply(&mut chunks[spot.chunk].items[spot.at])
}
