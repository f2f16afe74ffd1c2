//! Which of the connections goes first where there are too many: kept as they come, turn and go, so that it is a look.
#![tactic(auto)]

mod grow;
mod leaf;
mod order;
mod ranked;

pub use order::PruneOrder;
pub use ranked::Ranked;
