ghost use Rattle.std.specs.Prelude.{◌≡◌, IfOk};
ghost use Rattle.govern_rules.specs.BigRules.{big_orders};
ghost use Rattle.govern_rules.specs.Tasks.{big_task};

use crate::task::Task;
use crate::task_orders::big_task;
use crate::whom::Whom;
use crate::{BigRule, OrderList, View};
use net_base::OutOfMemory;
use peer_book::PeerBook;
use pick_policy::RankedPicker;
use std::alloc::Global;

/// One of the rules for big ledger peers.
pub fn rule_big(
    alloc: Global,
    rule: BigRule,
    view: &View,
    book: &PeerBook,
    picker: &RankedPicker,
) -> Result<OrderList, OutOfMemory>
    ensures { IfOk result (λ orders. orders ≡ big_orders rule view.now book.now) }
{
    let orders = big_task(alloc, task_of(rule), &Whom::Everybody, view, book, picker)?;
    Ok(OrderList::from_vec(orders))
}

fn task_of(rule: BigRule) -> Task
    ensures { result ≡ big_task rule }
{
    match rule {
        BigRule::B3 => Task::Forgetting,
        BigRule::B5 => Task::Promoting,
        BigRule::B6 => Task::Releasing,
        BigRule::B8 => Task::Activating,
        BigRule::B9 => Task::Deactivating,
    }
}
