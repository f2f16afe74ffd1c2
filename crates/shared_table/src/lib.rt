//! One table of connections that the outbound and the inbound governor share from two threads. A call under the lock is
//! one step, and the table's history says what was called and answered.
#![tactic(auto)]

mod call;
mod conditions;
mod entry;
mod gate;
mod gathered;
mod leased;
mod locked;
mod log;
mod place;
mod reply;
mod seat;
mod shared;
mod table;
mod tear;
mod torn;
mod view;
mod who;
mod work;
mod work_end;

pub use call::{InCall, InCallList, OutCall, OutCallList, TableCall};
pub use entry::{Entry, History, Noted, NotedList};
pub use gate::Gate;
pub use gathered::Gathered;
pub use log::Log;
pub use reply::TableReply;
pub use seat::{InSeat, OutSeat};
pub use shared::Shared;
pub use table::SharedTable;
pub use tear::first_torn;
pub use torn::Torn;
pub use who::Who;
pub use work::{Worked, run_two};
pub use work_end::WorkEnd;
