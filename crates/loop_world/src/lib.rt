//! A world on sockets, in which a node runs.
#![tactic(auto)]

mod addresses;
mod loop_world;
mod reactor;
mod stream;

pub use loop_world::LoopWorld;
