//! The commands that go from a source to a sink: which one the words are, and what comes of it.
#![tactic(auto)]

mod command;
pub mod law;
mod running;

pub use command::Command;
pub use running::run;
