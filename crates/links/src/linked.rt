ghost use Rattle.std.specs.Prelude.{◌≡◌, [], true, false, filter, map, OnOk, OnErr};
ghost use Rattle.conn_table.specs.Index.{last_at};
ghost use Rattle.govern_rules.specs.Lent.{is_counted};
ghost use Rattle.govern_rules.specs.SortedLinks.{IsInOrder};
ghost use Rattle.links.specs.Link.{place_of};
ghost use Rattle.links.specs.Rows.{AreInOrder, stands_at, with_new, with_link, without_link, counted_anew};

use crate::link::place_of;
use crate::link_row::LinkRow;
use chunked_list::ChunkedList;
use conn_table::Placed;
use govern_rules::{Link, LinkList};
use net_base::{Addr, OutOfMemory};
use std::alloc::Global;
use std::marker::Model;

/// What the rules see of each connection, in order of address and then id. Contracts see the list of it.
#[derive(Drop)]
pub struct Links {
    all: LinkRow,
    // those by which the rules count, as long as there was memory for each of them
    counted: LinkRow,
    has_all_counted: bool,
}

impl Model for Links {
    ghost use Rattle.std.specs.Prelude.{List, ◌≡◌, true, filter};
    ghost use Rattle.govern_rules.specs.Lent.{is_counted};
    ghost use Rattle.govern_rules.specs.declared.link.Link.{Link};

    ghost Value = { List Link };

    ghost view = { λ l. l.all };

    ghost invariant = { λ l. l.has_all_counted ≡ true → l.counted ≡ filter is_counted l.all };
}

impl Links {
    /// No connection yet. Takes no memory.
    pub fn new(alloc: Global) -> Links
        ensures { result ≡ [] }
    {
        Links {
            all: LinkRow::new(alloc),
            counted: LinkRow::new(alloc),
            has_all_counted: true,
        }
    }

    /// The address and id of the last connection with an address. None where there is none.
    pub fn last_at(&mut self, addr: Addr) -> Option<Placed>
        ensures value { result ≡ last_at addr (map place_of self.old) }
        ensures ordered { AreInOrder self.old }
        ensures same { self.new ≡ self.old }
    {
        self.all.last_at(addr)
    }

    /// The link of one more connection. A refusal changes nothing; where there is no memory for it among those by which the
    /// rules count, they look at all.
    pub fn enroll(&mut self, link: Link) -> Result<(), OutOfMemory>
        requires { stands_at (place_of link) self.old ≡ false }
        ensures ok { OnOk result (self.new ≡ with_new link self.old) }
        ensures err { OnErr result (self.new ≡ self.old) }
    {
        self.all.enter(link)?;
        if self.has_all_counted && link.is_counted() {
            self.has_all_counted = self.counted.enter(link).is_ok();
        }
        Ok(())
    }

    /// A link in place of the one of its connection. That takes no memory but for a link by which the rules count; where
    /// there is none for it, they look at all.
    pub fn set(&mut self, link: Link)
        requires { stands_at (place_of link) self.old ≡ true }
        ensures { self.new ≡ with_link link self.old }
    {
        self.all.set(link);
        let has_all = count_anew(&mut self.counted, link, self.has_all_counted);
        self.has_all_counted = has_all;
    }

    /// The link of a connection goes.
    pub fn leave(&mut self, placed: Placed)
        requires { stands_at placed self.old ≡ true }
        ensures { self.new ≡ without_link placed self.old }
    {
        self.all.leave(placed);
        self.counted.drop_at(placed);
    }

    /// They are lent to the rules.
    pub fn list(&self) -> LinkList<'_>
        ensures { result ≡ self.now }
    {
        LinkList::lent(self.all.rows(), self.counted_rows())
    }

    // Those by which the rules count, or all.
    fn counted_rows(&self) -> &ChunkedList<Link>
        ensures ordered { IsInOrder result.now }
        ensures same { filter is_counted result.now ≡ filter is_counted self.now }
    {
        if self.has_all_counted {
            self.counted.rows()
        } else {
            self.all.rows()
        }
    }
}

// A link is among those by which the rules count, where they count by it, in place of the one of its connection. Tells
// whether all are there, where all others were: not where there was no memory for it.
fn count_anew(counted: &mut LinkRow, link: Link, has_all: bool) -> bool
    ensures had { result ≡ true → has_all ≡ true }
    ensures counted { result ≡ true → counted.new ≡ counted_anew link counted.old }
{
    counted.drop_at(place_of(&link));
    if !link.is_counted() {
        return has_all;
    }
    match counted.enter(link) {
        Ok(()) => has_all,
        Err(_) => false,
    }
}
