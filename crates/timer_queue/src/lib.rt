//! The timers of connections: at most one moment for each connection and kind, fired in order of moment, id and kind.
#![tactic(auto)]

mod kept;
mod laws;
mod moments;
mod queue;
mod rows;

pub use laws::{
    changes_are_told_by_timers, lists_in_order_are_one, the_first_is_the_least,
    the_least_depends_on_the_timers, the_least_is_before_the_others,
};
pub use moments::Moments;
pub use net_base::{Deadline, Kind};
pub use queue::TimerQueue;
pub use rows::place_from;
