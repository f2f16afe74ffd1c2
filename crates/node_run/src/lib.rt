//! A node over any shelf and any world: its files are read, its world is opened, and the machine is driven in it.
#![tactic(auto)]

mod files;
pub mod law;
mod node_words;
mod serving;

pub use serving::run_node;
