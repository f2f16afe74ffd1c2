//! How a run of the program ended: its statuses, their codes and their texts.
#![tactic(auto)]

mod names;
mod status;
mod telling;
mod told;

pub use status::{Status, What, Which};
pub use telling::{tell, tell_behind, tell_unresolved};
