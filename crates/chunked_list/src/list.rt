ghost use Rattle.std.specs.Prelude.{◌≡◌, ◌<◌, ◌≤◌, ◌∷◌, ◌++◌, [], Bool, true, false, length, take, drop, slice_get, slice_index_or, slice_set, nat_eq, IfOk, OnOk, OnErr};
ghost use Rattle.std.specs.Fn.{ComputesKey};
ghost use Rattle.std.specs.List.{insert, remove};
ghost use Rattle.std.specs.List.Sorted.{IsPartitionedBy, IsPartitionPoint};
ghost use Rattle.std.specs.Option.{option_copied};
ghost use Rattle.chunked_list.specs.Changes.{IsChangedAt};

use crate::change::Change;
use crate::chunk::Chunk;
use crate::edit::{change_in, exchange, insert_at, remove_at};
use crate::search::point_in;
use crate::spot::{run_at, spot_of};
use net_base::OutOfMemory;
use std::alloc::{AllocError, Global};
use std::marker::Model;

// How many items a list has at most, so that each number of `firsts` is a word of 32 bits.
const MOST: usize = 4_294_967_295;

/// Items one after another. Contracts see the list of them.
#[derive(Drop)]
pub struct ChunkedList<T> {
    chunks: Vec<Chunk<T>>,
    // how many items stand before each chunk
    firsts: Vec<u32>,
    len: usize,
}

impl<T> Model for ChunkedList<T> {
    ghost use Rattle.std.specs.Prelude.{List, ◌≡◌, length};
    ghost use Rattle.chunked_list.specs.Chunks.{AreChunks, joined};

    ghost Value = { List T };

    ghost view = { λ l. joined l.chunks.items };

    ghost invariant = { λ l. AreChunks l.chunks.items l.firsts.items × (l.len ≡ length (joined l.chunks.items)) };
}

impl<T> ChunkedList<T> {
    /// No items yet. Takes no memory.
    pub fn new(alloc: Global) -> Self
        ensures { result ≡ [] }
    {
        ChunkedList {
            chunks: Vec::new(alloc),
            firsts: Vec::new(alloc),
            len: 0,
        }
    }

    pub fn len(&self) -> usize
        ensures { result ≡ length self.now }
    {
        self.len
    }

    pub fn is_empty(&self) -> bool
        ensures { result ≡ nat_eq (length self.now) 0 }
    {
        self.len == 0
    }

    /// The item at a place.
    pub fn at(&self, place: usize) -> &T
        requires { place < length self.now }
        ensures { result.now ≡ slice_index_or self.now place result.now }
    {
        let spot = spot_of(&self.chunks, &self.firsts, place);
        &self.chunks[spot.chunk].items[spot.at]
    }

    /// The item at a place. None where the list is shorter.
    pub fn get(&self, place: usize) -> Option<&T>
        ensures { option_copied result ≡ slice_get self.now place }
    {
        if place < self.len {
            Some(self.at(place))
        } else {
            None
        }
    }

    /// The items from a place to the end of the chunk that it stands in, so that a walk takes a chunk at a time. None
    /// where the list is shorter.
    pub fn run_from(&self, place: usize) -> &[T]
        ensures front { result.now ≡ take (length result.now) (drop place self.now) }
        ensures some { place < length self.now → 0 < length result.now }
    {
        if place >= self.len {
            return &[];
        }
        run_at(&self.chunks, spot_of(&self.chunks, &self.firsts, place))
    }

    /// How many items pass, where those that do stand before the others.
    pub fn partition_point<P: Fn(&T) -> bool>(&self, pred: P) -> usize
        requires { P.IsAlwaysCallable pred }
        ensures bound { result ≤ length self.now }
        ensures partitioned { (p : T → Bool) → ComputesKey P.FnMut p pred → IsPartitionedBy p self.now → IsPartitionPoint (λ y. p y ≡ true) (λ y. p y ≡ false) self.now result }
    {
        if self.len == 0 {
            return 0;
        }
        point_in(&self.chunks, &self.firsts, pred)
    }

    /// The same, where a place is tried first: the items before and at it tell whether it is right. It may be any number,
    /// and spares the search where it is right.
    pub fn partition_point_near<P: Fn(&T) -> bool>(&self, near: usize, pred: P) -> usize
        requires { P.IsAlwaysCallable pred }
        ensures bound { result ≤ length self.now }
        ensures partitioned { (p : T → Bool) → ComputesKey P.FnMut p pred → IsPartitionedBy p self.now → IsPartitionPoint (λ y. p y ≡ true) (λ y. p y ≡ false) self.now result }
    {
        let run = self.run_from(near.saturating_sub(1));
        if near == 0 {
            return match run {
                [next, ..] if !pred(next) => 0,
                _ => self.partition_point(pred),
            };
        }
        match run {
            [last, next, ..] if pred(last) && !pred(next) => near,
            _ => self.partition_point(pred),
        }
    }
}

impl<T: Copy> ChunkedList<T> {
    /// The items as a vector: a copy of one chunk after another.
    pub fn to_vec(&self, alloc: Global) -> Result<Vec<T>, AllocError>
        ensures { IfOk result (λ items. items.items ≡ self.now) }
    {
        let mut items = Vec::with_capacity(alloc, self.len)?;
        for place in 0..self.chunks.len() {
            items.extend_from_slice(&self.chunks[place].items)?;
        }
        Ok(items)
    }
}

impl<T: Copy + Drop> ChunkedList<T> {
    /// A list of some items.
    pub fn from_slice(alloc: Global, items: &[T]) -> Result<ChunkedList<T>, OutOfMemory>
        ensures { IfOk result (λ list. list ≡ items.now) }
    {
        let mut list = ChunkedList::new(alloc);
        for item in items {
            list.push(*item)?;
        }
        Ok(list)
    }
}

impl<T: Drop> ChunkedList<T> {
    /// Puts an item in before the one at a place, or at the end. A refusal changes nothing. A list of 2^32 - 1 items takes
    /// no more, and answers so with `OutOfMemory`.
    pub fn insert(&mut self, place: usize, item: T) -> Result<(), OutOfMemory>
        requires { place ≤ length self.old }
        ensures ok { OnOk result (self.new ≡ insert self.old place item) }
        ensures err { OnErr result (self.new ≡ self.old) }
    {
        if self.len >= MOST {
            return Err(OutOfMemory);
        }
        insert_at(&mut self.chunks, &mut self.firsts, place, self.len, item)?;
        self.len += 1;
        Ok(())
    }

    /// Puts an item at the end, as `insert` does. A refusal changes nothing.
    pub fn push(&mut self, item: T) -> Result<(), OutOfMemory>
        ensures ok { OnOk result (self.new ≡ self.old ++ item ∷ []) }
        ensures err { OnErr result (self.new ≡ self.old) }
    {
        self.insert(self.len, item)
    }

    /// Takes out the item at a place. Takes no memory.
    pub fn remove(&mut self, place: usize) -> T
        requires { place < length self.old }
        ensures value { result ≡ slice_index_or self.old place result }
        ensures items { self.new ≡ remove self.old place }
    {
        let item = remove_at(&mut self.chunks, &mut self.firsts, place);
        self.len -= 1;
        item
    }

    /// Puts an item in the place of another, which is the answer. Takes no memory.
    pub fn replace(&mut self, place: usize, item: T) -> T
        requires { place < length self.old }
        ensures value { result ≡ slice_index_or self.old place result }
        ensures items { self.new ≡ slice_set self.old place item }
    {
        let spot = spot_of(&self.chunks, &self.firsts, place);
        exchange(&mut self.chunks, spot, item)
    }

    /// Does something to the item at a place, where it stands. Takes no memory.
    pub fn change<C: Change<T>>(&mut self, place: usize, change: C) -> C::Answer
        requires inside { place < length self.old }
        requires may { (d : T) → C.may change (slice_index_or self.old place d) }
        ensures { IsChangedAt (λ x y. C.does change x y result) place self.old self.new }
    {
        let spot = spot_of(&self.chunks, &self.firsts, place);
        change_in(&mut self.chunks, spot, change)
    }
}
