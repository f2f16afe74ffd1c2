ghost use Rattle.std.specs.Prelude.{◌≡◌, ◌<◌, ◌≤◌, ◌↔◌, [], true, false, take, drop, length, IsTrue, IfOk, OnOk, vec_capacity};
ghost use Rattle.std.specs.List.{insert, prefix_len, remove};
ghost use Rattle.net_base.specs.Address.{address_below};
ghost use Rattle.peer_book.specs.Addresses.{has_address, with_address, without_address};
ghost use Rattle.peer_book.specs.Order.{IsRising};
ghost use Rattle.peer_book.specs.Row.{addresses_in};

use crate::place::{place_in, place_of};
use chunked_list::ChunkedList;
use net_base::{Addr, OutOfMemory};
use std::alloc::{AllocError, Global};

// Addresses in order, in chunks. An address that comes from another row has to come in without memory: where the chunks
// would want some, all go into a vector, which has room for them.
pub struct Row {
    pub chunks: ChunkedList<Addr>,
    // what stands behind the chunks: nothing, until memory was refused
    pub rest: Vec<Addr>,
    // where an address came in last, or went: a guess of where the next one does
    pub near: usize,
}

// By hand, so that it is a call where a row may be let go.
impl Drop for Row {
    fn drop(self) {
        let Row {
            chunks: _,
            rest: _,
            near: _,
        } = self;
    }
}

impl Row {
    pub fn new(alloc: Global) -> Row
        ensures { addresses_in result ≡ [] }
    {
        Row {
            chunks: ChunkedList::new(alloc),
            rest: Vec::new(alloc),
            near: 0,
        }
    }

    // A row of some addresses, with no room set aside.
    pub fn of(alloc: Global, addrs: &[Addr]) -> Result<Row, OutOfMemory>
        ensures { IfOk result (λ row. addresses_in row ≡ addrs.now) }
    {
        Ok(Row {
            chunks: ChunkedList::from_slice(alloc, addrs)?,
            rest: Vec::new(alloc),
            near: 0,
        })
    }

    pub fn is_empty(&self) -> bool
        ensures { IsTrue result ↔ (addresses_in self.now ≡ []) }
    {
        self.chunks.is_empty() && self.rest.is_empty()
    }

    // The addresses from a place on that stand together: none where the row is shorter.
    pub fn run_from(&self, place: usize) -> &[Addr]
        ensures front { result.now ≡ take (length result.now) (drop place (addresses_in self.now)) }
        ensures some { place < length (addresses_in self.now) → 0 < length result.now }
    {
        match place.checked_sub(self.chunks.len()) {
            Some(behind) => {
                let (_, run) = self.rest.split_at(behind.min(self.rest.len()));
                run
            }
            None => self.chunks.run_from(place),
        }
    }

    // A copy.
    pub fn to_vec(&self, alloc: Global) -> Result<Vec<Addr>, AllocError>
        ensures { IfOk result (λ addrs. addrs.items ≡ addresses_in self.now) }
    {
        let mut addrs = self.chunks.to_vec(alloc)?;
        addrs.extend_from_slice(&self.rest)?;
        Ok(addrs)
    }

    // There has to be room.
    pub fn insert(&mut self, addr: Addr)
        requires rising { IsRising (λ a. a) (addresses_in self.old) }
        requires room { length (addresses_in self.old) < vec_capacity self.old.rest }
        ensures items { addresses_in self.new ≡ with_address addr (addresses_in self.old) }
        ensures kept { vec_capacity self.old.rest ≤ vec_capacity self.new.rest }
    {
        let place = self.place(addr);
        self.put(place, addr);
        self.near = place + 1;
    }

    pub fn remove(&mut self, addr: Addr)
        requires rising { IsRising (λ a. a) (addresses_in self.old) }
        requires room { length (addresses_in self.old) ≤ vec_capacity self.old.rest }
        requires there { IsTrue (has_address addr (addresses_in self.old)) }
        ensures items { addresses_in self.new ≡ without_address addr (addresses_in self.old) }
        ensures kept { vec_capacity self.old.rest ≤ vec_capacity self.new.rest }
    {
        let place = self.place(addr);
        self.take(place);
        self.near = place;
    }

    // Makes room for so many addresses. Where there is none, as much memory again is asked for as there is: a row may be short
    // and have room for many, and is to grow a few times at most.
    pub fn reserve(&mut self, room: usize) -> Result<(), AllocError>
        ensures items { addresses_in self.new ≡ addresses_in self.old }
        ensures kept { vec_capacity self.old.rest ≤ vec_capacity self.new.rest }
        ensures made { OnOk result (room ≤ vec_capacity self.new.rest) }
    {
        let there = self.rest.capacity();
        if room <= there {
            return Ok(());
        }
        let more = room.max(2 * there).saturating_sub(self.rest.len());
        self.rest.try_reserve(more)
    }

    // How many addresses are below one.
    fn place(&self, addr: Addr) -> usize
        requires rising { IsRising (λ a. a) (addresses_in self.now) }
        requires room { length (addresses_in self.now) ≤ vec_capacity self.now.rest }
        ensures { result ≡ prefix_len (λ a. address_below a addr) (addresses_in self.now) }
    {
        let place = place_in(&self.chunks, self.near, &addr);
        if place < self.chunks.len() {
            return place;
        }
        place + place_of(&self.rest, &addr)
    }

    fn put(&mut self, place: usize, addr: Addr)
        requires upto { place ≤ length (addresses_in self.old) }
        requires room { length (addresses_in self.old) < vec_capacity self.old.rest }
        ensures items { addresses_in self.new ≡ insert (addresses_in self.old) place addr }
        ensures kept { vec_capacity self.old.rest ≤ vec_capacity self.new.rest }
    {
        if self.goes_in_chunks(place, addr) {
            return;
        }
        self.spill();
        // there is room
        let _ = self.rest.insert(place, addr);
    }

    // Whether an address went in among the chunks. Where not, nothing changed.
    fn goes_in_chunks(&mut self, place: usize, addr: Addr) -> bool
        ensures put { result ≡ true → addresses_in self.new ≡ insert (addresses_in self.old) place addr }
        ensures unchanged { result ≡ false → addresses_in self.new ≡ addresses_in self.old }
        ensures kept { vec_capacity self.new.rest ≡ vec_capacity self.old.rest }
    {
        if place > self.chunks.len() {
            return false;
        }
        match self.chunks.insert(place, addr) {
            Ok(()) => true,
            Err(_) => false,
        }
    }

    fn take(&mut self, place: usize)
        requires { place < length (addresses_in self.old) }
        ensures items { addresses_in self.new ≡ remove (addresses_in self.old) place }
        ensures kept { vec_capacity self.old.rest ≤ vec_capacity self.new.rest }
    {
        match place.checked_sub(self.chunks.len()) {
            Some(behind) => {
                self.rest.remove(behind);
            }
            None => {
                self.chunks.remove(place);
            }
        }
    }

    // All go into the vector. There has to be room.
    fn spill(&mut self)
        requires { length (addresses_in self.old) ≤ vec_capacity self.old.rest }
        ensures chunks { self.new.chunks ≡ [] }
        ensures items { self.new.rest.items ≡ addresses_in self.old }
        ensures kept { vec_capacity self.old.rest ≤ vec_capacity self.new.rest }
    {
        while let Some(last) = self.chunks.len().checked_sub(1) {
            let addr = self.chunks.remove(last);
            // there is room
            let _ = self.rest.insert(0, addr);
        }
    }
}
