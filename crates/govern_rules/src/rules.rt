ghost use Rattle.std.specs.Prelude.{◌≡◌, IfOk};
ghost use Rattle.govern_rules.specs.Rules.{g2_orders, g3_orders, g4_orders, g5_orders, g6_orders, g7_orders, g8_orders, g9_orders};

use crate::task::Task;
use crate::task_orders::ordinary_task;
use crate::valency::{Valency, groups_orders};
use crate::whom::Whom;
use crate::{OrderList, View};
use net_base::OutOfMemory;
use peer_book::PeerBook;
use pick_policy::Picker;
use root_groups::{Groups, Roots};
use std::alloc::Global;

/// Where fewer peers are known than wanted, asks established ones for addresses.
pub fn rule_g2(
    alloc: Global,
    view: &View,
    book: &PeerBook,
    _groups: &Groups,
    _roots: &Roots,
    picker: &Picker,
) -> Result<OrderList, OutOfMemory>
    ensures { IfOk result (λ orders. orders ≡ g2_orders view.now book.now) }
{
    let missing = view.targets.known.saturating_sub(book.known());
    let task = Task::Asking(missing.min(10));
    let orders = ordinary_task(alloc, task, &Whom::Everybody, view, book, picker)?;
    Ok(OrderList::from_vec(orders))
}

/// Where more peers are known than wanted, forgets cold ones that are neither local nor public.
pub fn rule_g3(
    alloc: Global,
    view: &View,
    book: &PeerBook,
    groups: &Groups,
    roots: &Roots,
    picker: &Picker,
) -> Result<OrderList, OutOfMemory>
    ensures { IfOk result (λ orders. orders ≡ g3_orders view.now book.now groups.now roots.now.publics) }
{
    let whom = Whom::Droppable(groups, roots);
    let orders = ordinary_task(alloc, Task::Forgetting, &whom, view, book, picker)?;
    Ok(OrderList::from_vec(orders))
}

/// Promotes members of each group up to its warm valency.
pub fn rule_g4(
    alloc: Global,
    view: &View,
    book: &PeerBook,
    groups: &Groups,
    _roots: &Roots,
    picker: &Picker,
) -> Result<OrderList, OutOfMemory>
    ensures { IfOk result (λ orders. orders ≡ g4_orders view.now book.now groups.now) }
{
    let none = Vec::new(alloc);
    let orders = groups_orders(alloc, Valency::WarmUp, view, book, groups, picker, none)?;
    Ok(OrderList::from_vec(orders))
}

/// Where fewer peers are established than wanted, promotes others than local ones.
pub fn rule_g5(
    alloc: Global,
    view: &View,
    book: &PeerBook,
    groups: &Groups,
    _roots: &Roots,
    picker: &Picker,
) -> Result<OrderList, OutOfMemory>
    ensures { IfOk result (λ orders. orders ≡ g5_orders view.now book.now groups.now) }
{
    let whom = Whom::NotLocal(groups);
    let orders = ordinary_task(alloc, Task::Promoting, &whom, view, book, picker)?;
    Ok(OrderList::from_vec(orders))
}

/// Where more peers are established than wanted, releases warm ones that are not local.
pub fn rule_g6(
    alloc: Global,
    view: &View,
    book: &PeerBook,
    groups: &Groups,
    _roots: &Roots,
    picker: &Picker,
) -> Result<OrderList, OutOfMemory>
    ensures { IfOk result (λ orders. orders ≡ g6_orders view.now book.now groups.now) }
{
    let whom = Whom::NotLocal(groups);
    let orders = ordinary_task(alloc, Task::Releasing, &whom, view, book, picker)?;
    Ok(OrderList::from_vec(orders))
}

/// Activates members of each group up to its hot valency.
pub fn rule_g7(
    alloc: Global,
    view: &View,
    book: &PeerBook,
    groups: &Groups,
    _roots: &Roots,
    picker: &Picker,
) -> Result<OrderList, OutOfMemory>
    ensures { IfOk result (λ orders. orders ≡ g7_orders view.now book.now groups.now) }
{
    let none = Vec::new(alloc);
    let orders = groups_orders(alloc, Valency::HotUp, view, book, groups, picker, none)?;
    Ok(OrderList::from_vec(orders))
}

/// Where fewer peers are active than wanted, activates others than local ones.
pub fn rule_g8(
    alloc: Global,
    view: &View,
    book: &PeerBook,
    groups: &Groups,
    _roots: &Roots,
    picker: &Picker,
) -> Result<OrderList, OutOfMemory>
    ensures { IfOk result (λ orders. orders ≡ g8_orders view.now book.now groups.now) }
{
    let whom = Whom::NotLocal(groups);
    let orders = ordinary_task(alloc, Task::Activating, &whom, view, book, picker)?;
    Ok(OrderList::from_vec(orders))
}

/// Where more peers are active than wanted, deactivates others than local ones; and then members of each group down
/// to its hot valency.
pub fn rule_g9(
    alloc: Global,
    view: &View,
    book: &PeerBook,
    groups: &Groups,
    _roots: &Roots,
    picker: &Picker,
) -> Result<OrderList, OutOfMemory>
    ensures { IfOk result (λ orders. orders ≡ g9_orders view.now book.now groups.now) }
{
    let whom = Whom::NotLocal(groups);
    let first = ordinary_task(alloc, Task::Deactivating, &whom, view, book, picker)?;
    let orders = groups_orders(alloc, Valency::HotDown, view, book, groups, picker, first)?;
    Ok(OrderList::from_vec(orders))
}
