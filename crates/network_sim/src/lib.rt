//! A network of nodes in memory, each of them what steps as the machine does, over one clock and one queue of happenings. What happens depends
//! on the scenario and the seed alone.
#![tactic(auto)]

mod acting;
mod addresses;
mod agenda;
mod asked;
mod attacking;
mod befalling;
mod draws;
mod fits;
mod graph;
mod ground;
mod happening;
mod keeping;
mod kept;
mod link;
mod linking;
mod links;
mod living;
mod measure;
mod mishaps;
mod network;
mod node;
mod nodes;
mod peers;
mod putting;
mod reached;
mod reporter;
mod running;
mod seat;
mod segments;
mod spread;
mod task;
mod trace;

pub use asked::{Asked, RunEnd};
pub use running::run_network;
