//! The engine of a node: one step for each event.
#![tactic(auto)]

mod engine;
mod held;
mod node_state;
mod own;
mod refusal;
mod tally;

pub use engine::Engine;
pub use held::HeldState;
pub(crate) use node_state::NodeState;
pub use refusal::NewRefusal;
pub use tally::Tally;
