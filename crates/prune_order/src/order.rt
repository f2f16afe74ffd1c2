ghost use Rattle.std.specs.Prelude.{◌≡◌, ◌-◌, ◌∷◌, ◌++◌, ◌<◌, ◌≤◌, [], true, length, OnOk};
ghost use Rattle.std.specs.List.{list_any};
ghost use Rattle.std.specs.Vec.{vec_capacity};
ghost use Rattle.accept_gate.specs.Prune.{choice_of};
ghost use Rattle.prune_order.specs.Kept.{AreRising, AreOfWord, IsOver};
ghost use Rattle.prune_order.specs.Leaves.{with_leaf};
ghost use Rattle.timer_queue.specs.Timers.{same_cid};
ghost use Rattle.prune_order.specs.Order.{candidates, stands, with_rank, without};

use crate::grow::{drop_gone, tree_over};
use crate::leaf::{Leaf, Standing, number_in, place_of, standing_by};
use least_tree::LeastTree;
use net_base::{Cid, OutOfMemory};
use std::alloc::Global;
use std::marker::Model;

/// The connections that stand, each with its rank where it may go. Contracts see them in order of id.
///
/// Beside them stands a tree that has of each its rank. So a change is told as far up as it matters, which is hardly ever far,
/// and the last of those that have the least rank goes first.
#[derive(Drop)]
pub struct PruneOrder {
    // in order of id, those that have gone among them
    leaves: Vec<Leaf>,
    ranks: LeastTree,
    last: Cid,
}

impl Model for PruneOrder {
    ghost use Rattle.std.specs.Prelude.{◌-◌, length};
    ghost use Rattle.std.specs.Vec.{vec_capacity};
    ghost use Rattle.prune_order.specs.Kept.{IsKept};
    ghost use Rattle.prune_order.specs.Leaves.{rows_of};
    ghost use Rattle.prune_order.specs.Order.{Order};

    ghost Value = { Order };

    ghost view = { λ o. record { rows = rows_of o.leaves.items; room = length o.ranks - length o.leaves.items; last = o.last } };

    ghost invariant = { λ o. IsKept o.leaves.items o.ranks o.last (vec_capacity o.leaves) };
}

impl PruneOrder {
    /// No connection yet. Takes no memory.
    pub fn new(alloc: Global) -> PruneOrder
        ensures { result ≡ record { rows = []; room = 0; last = record { 0 = 0 } } }
    {
        PruneOrder {
            leaves: Vec::new(alloc),
            ranks: LeastTree::new(alloc),
            last: Cid(0),
        }
    }

    /// Makes room for one more connection. No other call takes memory.
    pub fn make_room(&mut self) -> Result<(), OutOfMemory>
        ensures rows { self.new.rows ≡ self.old.rows }
        ensures last { self.new.last ≡ self.old.last }
        ensures room { OnOk result (0 < self.new.room) }
    {
        if self.leaves.len() < self.ranks.len() {
            return Ok(());
        }
        let ranks = tree_over(*self.leaves.allocator(), &self.leaves)?;
        let more = ranks.len().saturating_sub(self.leaves.len());
        self.leaves.try_reserve(more)?;
        drop_gone(&mut self.leaves);
        self.ranks = ranks;
        Ok(())
    }

    /// A connection comes, which has a rank where it may go. Its id is above that of each that came before.
    pub fn come(&mut self, cid: Cid, rank: Option<u8>)
        requires room { 0 < self.old.room }
        requires above { self.old.last.0 < cid.0 }
        ensures { self.new ≡ record {
          rows = self.old.rows ++ record { cid = cid; rank = rank } ∷ [];
          room = self.old.room - 1;
          last = cid;
        } }
    {
        let place = self.leaves.len();
        let leaf = Leaf {
            cid,
            standing: standing_by(rank),
        };
        self.ranks.put(place, number_in(&leaf));
        // there is room
        let _ = self.leaves.push(leaf);
        self.last = cid;
    }

    /// A connection has another rank, or may not go any more.
    pub fn turn(&mut self, cid: Cid, rank: Option<u8>)
        requires { stands cid self.old.rows ≡ true }
        ensures { self.new ≡ record self.old { rows = with_rank cid rank self.old.rows } }
    {
        put(&mut self.leaves, &mut self.ranks, cid, standing_by(rank));
    }

    /// A connection goes.
    pub fn leave(&mut self, cid: Cid)
        requires { stands cid self.old.rows ≡ true }
        ensures { self.new ≡ record self.old { rows = without cid self.old.rows } }
    {
        put(&mut self.leaves, &mut self.ranks, cid, Standing::Gone);
    }

    /// Which one goes first. None where none may go.
    pub fn choice(&self) -> Option<Cid>
        ensures { result ≡ choice_of (candidates self.now.rows) }
    {
        let place = self.ranks.last_least()?;
        let leaf = self.leaves.get(place)?;
        Some(leaf.cid)
    }
}

// A connection that came stands otherwise.
#[inline(always)]
fn put(leaves: &mut Vec<Leaf>, ranks: &mut LeastTree, cid: Cid, standing: Standing)
    requires rise { AreRising leaves.old.items }
    requires fit { length leaves.old.items ≤ length ranks.old }
    requires ranks { IsOver leaves.old.items ranks.old }
    requires there { list_any (λ l. same_cid l.cid cid) leaves.old.items ≡ true }
    ensures leaves { leaves.new.items ≡ with_leaf (record { cid = cid; standing = standing }) leaves.old.items }
    ensures memory { vec_capacity leaves.new ≡ vec_capacity leaves.old }
    ensures length { length ranks.new ≡ length ranks.old }
    ensures ranks { IsOver leaves.new.items ranks.new }
    ensures words { AreOfWord leaves.old.items → AreOfWord leaves.new.items }
{
    let place = place_of(leaves, cid);
    let leaf = Leaf { cid, standing };
    ranks.put(place, number_in(&leaf));
    leaves[place] = leaf;
}
