ghost use Rattle.std.specs.Prelude.{◌≡◌, ◌≤◌, filter, length, IfOk};
ghost use Rattle.std.specs.Vec.{vec_capacity};
ghost use Rattle.least_tree.specs.Numbers.{room_for, IsLaid};
ghost use Rattle.prune_order.specs.Numbers.{numbers_in};
ghost use Rattle.prune_order.specs.Leaves.{is_there, those_there};

use crate::leaf::{Leaf, is_there, number_in};
use least_tree::LeastTree;
use net_base::OutOfMemory;
use std::alloc::{AllocError, Global};

// Drops the leaves of those that have gone.
pub fn drop_gone(leaves: &mut Vec<Leaf>)
    ensures leaves { leaves.new.items ≡ filter (λ l. is_there l.standing) leaves.old.items }
    ensures memory { vec_capacity leaves.new ≡ vec_capacity leaves.old }
{
    leaves.retain(|leaf| is_there(leaf));
}

// The ranks of those that have not gone, and room for at least half as many again.
pub fn tree_over(alloc: Global, leaves: &[Leaf]) -> Result<LeastTree, OutOfMemory>
    ensures laid { IfOk result (λ tree. IsLaid (numbers_in (those_there leaves.now)) tree) }
    ensures room { IfOk result (λ tree. room_for (length (those_there leaves.now)) ≤ length tree) }
{
    let numbers = numbers(alloc, leaves)?;
    LeastTree::over(alloc, &numbers)
}

fn numbers(alloc: Global, leaves: &[Leaf]) -> Result<Vec<u128>, AllocError>
    ensures { IfOk result (λ numbers. numbers.items ≡ numbers_in (those_there leaves.now)) }
{
    leaves
        .iter()
        .filter(|leaf| is_there(leaf))
        .map(|leaf| number_in(leaf))
        .collect(alloc)
}
