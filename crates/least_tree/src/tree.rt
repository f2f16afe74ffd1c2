ghost use Rattle.std.specs.Prelude.{◌≡◌, ◌<◌, ◌≤◌, ◌*◌, ◌^◌, [], None, length, set, take, IfOk, IfSome};
ghost use Rattle.std.specs.List.{insert};
ghost use Rattle.least_tree.specs.Nodes.{doubled};
ghost use Rattle.least_tree.specs.Numbers.{none, least_of, room_for, IsLaid, IsLastLeast};

use crate::node::{build, last_with, raise};
use net_base::OutOfMemory;
use std::alloc::Global;
use std::marker::Model;

/// What stands where there is no number. No number is greater.
pub const NONE: u128 = u128::MAX;

/// A row of numbers, of which the least is a look. Contracts see the row.
///
/// The numbers are the leaves of a tree in which each inner node has the lesser of its two children. So a change is told as
/// far up as it matters, and the least number stands at the root.
#[derive(Drop)]
pub struct LeastTree {
    // The root is 1, and the children of k are 2 * k and 2 * k + 1. The second half are the leaves.
    nodes: Vec<u128>,
    size: usize,
    // how often 1 is doubled to that
    levels: usize,
}

impl Model for LeastTree {
    ghost use Rattle.std.specs.Prelude.{ℕ, List, drop};
    ghost use Rattle.least_tree.specs.Nodes.{IsRow};

    ghost Value = { List ℕ };

    ghost view = { λ t. drop t.size t.nodes.items };

    ghost invariant = { λ t. IsRow t.levels t.size t.nodes.items };
}

impl LeastTree {
    /// No numbers. Takes no memory.
    pub fn new(alloc: Global) -> LeastTree
        ensures { result ≡ [] }
    {
        LeastTree {
            nodes: Vec::new(alloc),
            size: 0,
            levels: 0,
        }
    }

    /// These numbers, and room for at least half as many again, in which no number stands yet.
    pub fn over(alloc: Global, numbers: &[u128]) -> Result<LeastTree, OutOfMemory>
        ensures laid { IfOk result (λ tree. IsLaid numbers.now tree) }
        ensures room { IfOk result (λ tree. room_for (length numbers.now) ≤ length tree) }
    {
        let (size, levels) = size_for(numbers.len());
        let mut nodes = vec![in alloc; NONE; 2 * size]?;
        nodes[size..size + numbers.len()].copy_from_slice(numbers);
        build(&mut nodes);
        Ok(LeastTree {
            nodes,
            size,
            levels,
        })
    }

    /// For how many numbers there is room.
    pub fn len(&self) -> usize
        ensures { result ≡ length self.now }
    {
        self.size
    }

    /// The least of all numbers.
    pub fn least(&self) -> u128
        ensures { result ≡ least_of self.now }
    {
        let nodes = self.nodes.as_slice();
        match nodes.get(1) {
            Some(least) => *least,
            None => NONE,
        }
    }

    /// The last place that has the least number. None where there is no number.
    pub fn last_least(&self) -> Option<usize>
        ensures last { IfSome result (λ place. IsLastLeast self.now place) }
        ensures none { result ≡ None → least_of self.now ≡ none }
    {
        let least = self.least();
        if least == NONE {
            return None;
        }
        Some(last_with(&self.nodes, self.levels, least) - self.size)
    }

    /// Puts a number in the place of another.
    pub fn put(&mut self, place: usize, number: u128)
        requires { place < length self.old }
        ensures { self.new ≡ set self.old place number }
    {
        let leaf = self.size + place;
        if self.nodes[leaf] == number {
            return;
        }
        self.nodes[leaf] = number;
        raise(&mut self.nodes, leaf / 2);
    }

    /// Puts a number before the one at a place. Those from there on move by one, and the last drops out.
    pub fn insert(&mut self, place: usize, number: u128)
        requires { place < length self.old }
        ensures { self.new ≡ take (length self.old) (insert self.old place number) }
    {
        self.nodes.pop();
        // there is room
        let _ = self.nodes.insert(self.size + place, number);
        build(&mut self.nodes);
    }
}

// A power of two that is room for so many numbers, and how often 1 is doubled to it.
fn size_for(count: usize) -> (usize, usize)
    requires { count < 2 ^ 60 }
    ensures power { result.0 ≡ doubled result.1 1 }
    ensures room { room_for count ≤ result.0 }
    ensures bound { result.0 ≤ 2 * room_for count }
{
    let wanted = count + count / 2 + 2;
    let mut size = 2;
    let mut levels = 1;
    while size < wanted {
        size *= 2;
        levels += 1;
    }
    (size, levels)
}
