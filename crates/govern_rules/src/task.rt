ghost use Rattle.std.specs.Prelude.{◌≡◌};
ghost use Rattle.govern_rules.specs.Tasks.{order_of};

use crate::Order;
use net_base::Addr;

// What a rule does with those that it picks.
#[derive(Clone, Copy)]
pub enum Task {
    Asking(u64),
    Forgetting,
    Promoting,
    Releasing,
    Activating,
    Deactivating,
}

pub fn order_of(task: Task, addr: Addr) -> Order
    ensures { result ≡ order_of task addr }
{
    match task {
        Task::Asking(amount) => Order::Ask(addr, amount),
        Task::Forgetting => Order::Forget(addr),
        Task::Promoting => Order::Promote(addr),
        Task::Releasing => Order::Release(addr),
        Task::Activating => Order::Activate(addr),
        Task::Deactivating => Order::Deactivate(addr),
    }
}
