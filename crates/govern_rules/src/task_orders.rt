ghost use Rattle.std.specs.Prelude.{◌≡◌, true, false, IfOk};
ghost use Rattle.govern_rules.specs.Tasks.{task_orders};
ghost use Rattle.govern_rules.specs.Whom.{is_meant};

use crate::candidates::has_nobody;
use crate::orders::{big_orders, ordinary_orders};
use crate::search::Search;
use crate::task::Task;
use crate::wanted::{Wanted, find_wanted};
use crate::whom::Whom;
use crate::{Order, View};
use net_base::OutOfMemory;
use peer_book::PeerBook;
use pick_policy::{Picker, RankedPicker};
use std::alloc::Global;

// The orders of a rule by the targets for ordinary peers. Where nobody has the temperature that is asked for, nothing is
// counted; where none is wanted, no peer is looked at.
#[inline(always)]
pub fn ordinary_task(
    alloc: Global,
    task: Task,
    whom: &Whom,
    view: &View,
    book: &PeerBook,
    picker: &Picker,
) -> Result<Vec<Order>, OutOfMemory>
    ensures { IfOk result (λ orders. orders.items ≡ task_orders task false (is_meant whom.now) view.now book.now) }
{
    if has_nobody(task, book) {
        return Ok(Vec::new(alloc));
    }
    let search = Search {
        big: false,
        task,
        whom: *whom,
        view,
    };
    let Wanted { number, cands } = find_wanted(alloc, &search, book)?;
    if number == 0 {
        return Ok(Vec::new(alloc));
    }
    ordinary_orders(alloc, task, number, view.word, &cands, picker)
}

// The same for big ledger peers.
pub fn big_task(
    alloc: Global,
    task: Task,
    whom: &Whom,
    view: &View,
    book: &PeerBook,
    picker: &RankedPicker,
) -> Result<Vec<Order>, OutOfMemory>
    ensures { IfOk result (λ orders. orders.items ≡ task_orders task true (is_meant whom.now) view.now book.now) }
{
    if has_nobody(task, book) {
        return Ok(Vec::new(alloc));
    }
    let search = Search {
        big: true,
        task,
        whom: *whom,
        view,
    };
    let Wanted { number, cands } = find_wanted(alloc, &search, book)?;
    if number == 0 {
        return Ok(Vec::new(alloc));
    }
    big_orders(alloc, task, number, view.word, &cands, picker)
}
