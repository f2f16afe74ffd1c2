ghost use Rattle.std.specs.Prelude.{◌≡◌, ◌≤◌, [], true, false, is_some, length, map, slice_get, OnOk, OnErr};
ghost use Rattle.std.specs.List.{prefix_len};
ghost use Rattle.std.specs.Option.{option_map};
ghost use Rattle.conn_table.specs.Index.{found_at, last_at, placed_below, up_to};
ghost use Rattle.links.specs.Link.{place_of};
ghost use Rattle.links.specs.Rows.{AreInOrder, stands_at, link_at, link_before, with_new, with_link, without_link};
ghost use Rattle.govern_rules.specs.SortedLinks.{IsInOrder};

use crate::link::place_of;
use chunked_list::ChunkedList;
use conn_table::Placed;
use govern_rules::Link;
use net_base::{Addr, OutOfMemory};
use std::alloc::Global;
use std::marker::Model;

/// Links in order of address and then id, none twice. Contracts see the list of them.
#[derive(Drop)]
pub struct LinkRow {
    rows: ChunkedList<Link>,
    // where the links of the address that was last looked for end: a guess of where one more link comes
    near: usize,
}

impl Model for LinkRow {
    ghost use Rattle.std.specs.Prelude.{List};
    ghost use Rattle.govern_rules.specs.declared.link.Link.{Link};
    ghost use Rattle.links.specs.Rows.{AreInOrder};

    ghost Value = { List Link };

    ghost view = { λ l. l.rows };

    ghost invariant = { λ l. AreInOrder l.rows };
}

impl LinkRow {
    /// No link yet. Takes no memory.
    pub fn new(alloc: Global) -> LinkRow
        ensures { result ≡ [] }
    {
        LinkRow {
            rows: ChunkedList::new(alloc),
            near: 0,
        }
    }

    /// The links, as the rules are lent them.
    pub fn rows(&self) -> &ChunkedList<Link>
        ensures value { result.now ≡ self.now }
        ensures ordered { IsInOrder self.now }
    {
        &self.rows
    }

    /// The address and id of the last link with an address, so that the search for the place of one more is short. None where
    /// there is none.
    pub fn last_at(&mut self, addr: Addr) -> Option<Placed>
        ensures value { result ≡ last_at addr (map place_of self.old) }
        ensures ordered { AreInOrder self.old }
        ensures same { self.new ≡ self.old }
    {
        let end = end_of(&self.rows, addr);
        self.near = end;
        placed_before(&self.rows, end, addr)
    }

    /// One more. A refusal changes nothing.
    pub fn enter(&mut self, link: Link) -> Result<(), OutOfMemory>
        requires { stands_at (place_of link) self.old ≡ false }
        ensures ok { OnOk result (self.new ≡ with_new link self.old) }
        ensures err { OnErr result (self.new ≡ self.old) }
        ensures ordered { AreInOrder self.old }
    {
        let row = place_near(&self.rows, self.near, place_of(&link));
        self.rows.insert(row, link)
    }

    /// A link in place of the one of its connection. Takes no memory.
    pub fn set(&mut self, link: Link)
        requires { stands_at (place_of link) self.old ≡ true }
        ensures put { self.new ≡ with_link link self.old }
        ensures ordered { AreInOrder self.old }
    {
        let row = place_in(&self.rows, place_of(&link));
        self.rows.replace(row, link);
    }

    /// The link of a connection goes.
    pub fn leave(&mut self, placed: Placed)
        requires { stands_at placed self.old ≡ true }
        ensures { self.new ≡ without_link placed self.old }
    {
        let row = place_in(&self.rows, placed);
        self.rows.remove(row);
    }

    /// The link of a connection goes, where there is one.
    pub fn drop_at(&mut self, placed: Placed)
        ensures { self.new ≡ without_link placed self.old }
    {
        let row = place_in(&self.rows, placed);
        if !is_at(&self.rows, row, placed) {
            return;
        }
        self.rows.remove(row);
    }
}

// How many links have an address and id below one.
fn place_in(rows: &ChunkedList<Link>, placed: Placed) -> usize
    requires { AreInOrder rows.now }
    ensures value { result ≡ prefix_len (λ l. placed_below (place_of l) placed) rows.now }
    ensures bound { result ≤ length rows.now }
{
    rows.partition_point(|link| is_below(link, &placed))
}

// The same, where a place is tried first.
fn place_near(rows: &ChunkedList<Link>, near: usize, placed: Placed) -> usize
    requires { AreInOrder rows.now }
    ensures value { result ≡ prefix_len (λ l. placed_below (place_of l) placed) rows.now }
    ensures bound { result ≤ length rows.now }
{
    rows.partition_point_near(near, |link| is_below(link, &placed))
}

// How many links have an address up to one.
fn end_of(rows: &ChunkedList<Link>, addr: Addr) -> usize
    requires { AreInOrder rows.now }
    ensures { result ≡ prefix_len (λ l. up_to addr (place_of l)) rows.now }
{
    rows.partition_point(|link| link.addr.is_up_to(&addr))
}

// The address and id of the link before a place, where it has an address.
fn placed_before(rows: &ChunkedList<Link>, end: usize, addr: Addr) -> Option<Placed>
    ensures { result ≡ found_at addr (option_map place_of (link_before end rows.now)) }
{
    let link = rows.get(end.checked_sub(1)?)?;
    link.addr.is_same(&addr).then_some(place_of(link))
}

// Whether the address and id of a link are below some.
fn is_below(link: &Link, placed: &Placed) -> bool
    ensures { result ≡ placed_below (place_of link.now) placed.now }
{
    link.addr.is_before_with(link.cid, &placed.addr, placed.cid)
}

// Whether the link in a row is that of a connection.
fn is_at(rows: &ChunkedList<Link>, row: usize, placed: Placed) -> bool
    ensures { result ≡ is_some (link_at placed (slice_get rows.now row)) }
{
    match rows.get(row) {
        Some(link) => link.addr == placed.addr && link.cid == placed.cid,
        None => false,
    }
}
