ghost use Rattle.std.specs.Prelude.{◌≡◌, map, true, false, IfOk};
ghost use Rattle.std.specs.List.{IsDistinct};
ghost use Rattle.net_base.specs.Address.{same_address};
ghost use Rattle.peer_book.specs.Book.{addresses_of};
ghost use Rattle.govern_rules.specs.Orders.{picks_of};
ghost use Rattle.govern_rules.specs.Tasks.{order_of};

use crate::Order;
use crate::found::Found;
use crate::task::{Task, order_of};
use net_base::{Addr, OutOfMemory};
use pick_policy::{Picker, RankedPicker};
use std::alloc::{AllocError, Global};

// One order for each of the candidates that are picked as ordinary peers are.
pub fn ordinary_orders(
    alloc: Global,
    task: Task,
    number: u64,
    word: u64,
    cands: &Found,
    picker: &Picker,
) -> Result<Vec<Order>, OutOfMemory>
    requires { IsDistinct same_address (addresses_of cands.now) }
    ensures { IfOk result (λ orders. orders.items ≡ map (order_of task) (picks_of false word number cands.now)) }
{
    let addrs = cands.addresses(alloc)?;
    let picks = picker.pick(alloc, &addrs, number as usize, word)?;
    Ok(given(alloc, task, picks.as_slice())?)
}

// The same as big ledger peers are.
pub fn big_orders(
    alloc: Global,
    task: Task,
    number: u64,
    word: u64,
    cands: &Found,
    picker: &RankedPicker,
) -> Result<Vec<Order>, OutOfMemory>
    requires { IsDistinct same_address (addresses_of cands.now) }
    ensures { IfOk result (λ orders. orders.items ≡ map (order_of task) (picks_of true word number cands.now)) }
{
    let rated = cands.rated(alloc)?;
    let picks = picker.pick(alloc, &rated, number as usize, word)?;
    Ok(given(alloc, task, picks.as_slice())?)
}

fn given(alloc: Global, task: Task, picks: &[Addr]) -> Result<Vec<Order>, AllocError>
    ensures { IfOk result (λ orders. orders.items ≡ map (order_of task) picks.now) }
{
    picks
        .iter()
        .map(|addr| order_of(task, *addr))
        .collect(alloc)
}
