ghost use Rattle.std.specs.Prelude.{◌≡◌, ◌≤◌, length, IfOk};
ghost use Rattle.std.specs.Vec.{vec_capacity};
ghost use Rattle.least_tree.specs.Numbers.{room_for, IsLaid};
ghost use Rattle.timer_queue.specs.Kept.{those_in};
ghost use Rattle.timer_queue.specs.Keys.{keys_in};

use super::Row;
use least_tree::LeastTree;
use net_base::OutOfMemory;
use std::alloc::{AllocError, Global};

// Drops the rows of those that have left.
pub fn drop_gone(rows: &mut Vec<Row>)
    ensures rows { rows.new.items ≡ those_in rows.old.items }
    ensures memory { vec_capacity rows.new ≡ vec_capacity rows.old }
{
    rows.retain(|row| row.enrolled);
}

// The keys of those that have not left, and room for at least half as many again.
pub fn tree_over(alloc: Global, rows: &[Row]) -> Result<LeastTree, OutOfMemory>
    ensures laid { IfOk result (λ tree. IsLaid (keys_in (those_in rows.now)) tree) }
    ensures room { IfOk result (λ tree. room_for (length (those_in rows.now)) ≤ length tree) }
{
    let keys = keys(alloc, rows)?;
    LeastTree::over(alloc, &keys)
}

fn keys(alloc: Global, rows: &[Row]) -> Result<Vec<u128>, AllocError>
    ensures { IfOk result (λ keys. keys.items ≡ keys_in (those_in rows.now)) }
{
    rows.iter()
        .filter(|row| row.enrolled)
        .map(|row| row.key())
        .collect(alloc)
}
