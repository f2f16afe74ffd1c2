ghost use Rattle.std.specs.Prelude.{◌≡◌, ◌<◌, [], Some, length, OnOk, OnErr, slice_get, IsTrue};
ghost use Rattle.std.specs.List.{prefix_len};
ghost use Rattle.conn_table.specs.Index.{IsRising, placed_below, put_in, taken_out, stands, last_at, found_at, up_to, before};

use chunked_list::ChunkedList;
use net_base::{Addr, Cid, OutOfMemory};
use std::alloc::Global;
use std::marker::Model;

/// An address and the id of a connection that has it. Ordered by the address and then the id.
#[derive(Clone, Copy, PartialEq, Eq, PartialOrd, Ord)]
pub struct Placed {
    pub addr: Addr,
    pub cid: Cid,
}

/// Addresses and ids, one after another.
#[derive(Drop)]
pub struct PlacedList {
    items: ChunkedList<Placed>,
}

impl Model for PlacedList {
    ghost use Rattle.std.specs.Prelude.{List};
    ghost use Rattle.conn_table.specs.declared.placed.Placed.{Placed};

    ghost Value = { List Placed };

    ghost view = { λ l. l.items };
}

impl PlacedList {
    // Nothing yet. Takes no memory.
    pub(crate) fn new(alloc: Global) -> PlacedList
        ensures { result ≡ [] }
    {
        PlacedList {
            items: ChunkedList::new(alloc),
        }
    }

    /// How many there are.
    pub fn len(&self) -> usize
        ensures { result ≡ length self.now }
    {
        self.items.len()
    }

    /// The one at a place, from 0, in order of address and then id.
    pub fn at(&self, place: usize) -> Placed
        requires { place < length self.now }
        ensures { slice_get self.now place ≡ Some result }
    {
        *self.items.at(place)
    }

    // Puts one in at its place. A refusal changes nothing.
    pub(crate) fn insert(&mut self, placed: Placed) -> Result<(), OutOfMemory>
        requires { IsRising self.old }
        ensures ok { OnOk result (self.new ≡ put_in placed self.old) }
        ensures err { OnErr result (self.new ≡ self.old) }
    {
        let place = place_of(&self.items, placed);
        self.items.insert(place, placed)
    }

    // Takes one out that is there.
    pub(crate) fn remove(&mut self, placed: Placed)
        requires rising { IsRising self.old }
        requires there { IsTrue (stands placed self.old) }
        ensures { self.new ≡ taken_out placed self.old }
    {
        let place = place_of(&self.items, placed);
        self.items.remove(place);
    }

    // The last with an address.
    pub(crate) fn last_at(&self, addr: Addr) -> Option<Placed>
        requires { IsRising self.now }
        ensures { result ≡ last_at addr self.now }
    {
        let end = end_of(&self.items, addr);
        placed_before(&self.items, end, addr)
    }
}

// How many of a rising list are below one.
fn place_of(items: &ChunkedList<Placed>, placed: Placed) -> usize
    requires { IsRising items.now }
    ensures { result ≡ prefix_len (λ p. placed_below p placed) items.now }
{
    items.partition_point(|p| is_below(p, &placed))
}

// How many of a rising list have an address up to one.
fn end_of(items: &ChunkedList<Placed>, addr: Addr) -> usize
    requires { IsRising items.now }
    ensures { result ≡ prefix_len (up_to addr) items.now }
{
    items.partition_point(|p| p.addr.is_up_to(&addr))
}

// Whether one comes before another.
fn is_below(placed: &Placed, than: &Placed) -> bool
    ensures { result ≡ placed_below placed.now than.now }
{
    placed.addr.is_before_with(placed.cid, &than.addr, than.cid)
}

// The one before a place, where it has an address.
fn placed_before(items: &ChunkedList<Placed>, end: usize, addr: Addr) -> Option<Placed>
    ensures { result ≡ found_at addr (before end items.now) }
{
    let placed = items.get(end.checked_sub(1)?).copied()?;
    (placed.addr == addr).then_some(placed)
}
