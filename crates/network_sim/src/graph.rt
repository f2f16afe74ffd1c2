use crate::node::Node;
use crate::nodes::Nodes;
use net_base::OutOfMemory;
use std::alloc::Global;

/// Which nodes have an active connection with which, whoever uses it.
#[derive(Drop)]
pub(crate) struct Graph {
    alloc: Global,
    /// The nodes that count: those that are up and no attacker's.
    pub members: Vec<usize>,
    /// Of each node, those next to it.
    near: Vec<Vec<usize>>,
    /// Of each node, the number of the last walk that met it.
    met: Vec<u64>,
    walks: u64,
    /// How many active peers they have, and how many of these are an attacker's.
    pub active: u64,
    pub attackers: u64,
}

/// Into how many pieces a graph falls.
#[derive(Clone, Copy)]
pub(crate) struct Pieces {
    /// Pieces of two nodes and more.
    pub pieces: u64,
    /// Nodes that are next to none.
    pub alone: u64,
    /// How many nodes the largest piece has.
    pub largest: u64,
}

/// How far a walk came.
#[derive(Clone, Copy)]
struct Walk {
    met: u64,
    depth: u64,
}

impl Graph {
    /// That of no nodes.
    pub(crate) fn new(alloc: Global) -> Graph {
        Graph {
            alloc,
            members: Vec::new(alloc),
            near: Vec::new(alloc),
            met: Vec::new(alloc),
            walks: 0,
            active: 0,
            attackers: 0,
        }
    }

    /// Draws the nodes, and whom each of them uses.
    pub(crate) fn draw(&mut self, nodes: &Nodes) -> Result<(), OutOfMemory> {
        for _ in &nodes.all {
            self.near.push(Vec::new(self.alloc))?;
            self.met.push(0)?;
        }
        for (place, node) in nodes.all.iter().enumerate() {
            if node.is_up && node.is_honest() {
                self.members.push(place)?;
                self.draw_uses(place, node, nodes)?;
            }
        }
        Ok(())
    }

    fn draw_uses(&mut self, place: usize, node: &Node, nodes: &Nodes) -> Result<(), OutOfMemory> {
        for peer in node.peers.hot.iter() {
            self.active = self.active.saturating_add(1);
            if !nodes.is_honest(*peer) {
                self.attackers = self.attackers.saturating_add(1);
            } else if nodes.is_up(*peer) {
                self.put_near(place, *peer)?;
                self.put_near(*peer, place)?;
            }
        }
        Ok(())
    }

    fn put_near(&mut self, one: usize, other: usize) -> Result<(), OutOfMemory> {
        if let Some(near) = self.near.get_mut(one) {
            near.push(other)?;
        }
        Ok(())
    }

    pub(crate) fn pieces(&mut self) -> Result<Pieces, OutOfMemory> {
        let mut pieces = Pieces {
            pieces: 0,
            alone: 0,
            largest: 0,
        };
        self.walks = 1;
        for place in 0..self.members.len() {
            let walk = self.walk_from(place)?;
            pieces = pieces.with(walk.met);
        }
        Ok(pieces)
    }

    /// How far the node is that is farthest from a member, of those that it reaches.
    pub(crate) fn depth_from(&mut self, place: usize) -> Result<u64, OutOfMemory> {
        self.walks = self.walks.saturating_add(1);
        let walk = self.walk_from(place)?;
        Ok(walk.depth)
    }

    // Walks over all that are reached from a member. It meets none that this walk has met before.
    fn walk_from(&mut self, place: usize) -> Result<Walk, OutOfMemory> {
        let mut queue = Vec::new(self.alloc);
        if let Some(start) = self.members.get(place).copied() {
            meet(start, 0, self.walks, &mut self.met, &mut queue)?;
        }
        self.walk(&mut queue)
    }

    // Goes on from those that were met first.
    fn walk(&mut self, queue: &mut Vec<(usize, u64)>) -> Result<Walk, OutOfMemory> {
        let mut walk = Walk { met: 0, depth: 0 };
        for place in 0..usize::MAX {
            let Some((node, depth)) = queue.get(place).copied() else {
                break;
            };
            walk.met = walk.met.saturating_add(1);
            walk.depth = depth;
            self.meet_near(node, depth.saturating_add(1), queue)?;
        }
        Ok(walk)
    }

    fn meet_near(
        &mut self,
        node: usize,
        depth: u64,
        queue: &mut Vec<(usize, u64)>,
    ) -> Result<(), OutOfMemory> {
        let Some(near) = self.near.get(node) else {
            return Ok(());
        };
        for other in near {
            meet(*other, depth, self.walks, &mut self.met, queue)?;
        }
        Ok(())
    }
}

// A node is met, where this walk hasn't met it before.
fn meet(
    node: usize,
    depth: u64,
    walk: u64,
    met: &mut Vec<u64>,
    queue: &mut Vec<(usize, u64)>,
) -> Result<(), OutOfMemory> {
    match met.get_mut(node) {
        Some(last) if *last != walk => {
            *last = walk;
            queue.push((node, depth))?;
            Ok(())
        }
        _ => Ok(()),
    }
}

impl Pieces {
    // With a piece of so many nodes, where it has any.
    fn with(self, size: u64) -> Pieces {
        Pieces {
            pieces: self.pieces.saturating_add((size >= 2) as u64),
            alone: self.alone.saturating_add((size == 1) as u64),
            largest: self.largest.max(size),
        }
    }
}
