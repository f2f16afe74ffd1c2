//! The machine in a world: driven over the world's events, with a trace written of it, and drilled in a made town.
#![tactic(auto)]

mod course;
mod drilling;
mod driving;
pub mod law;
mod tallies;

pub use drilling::drill;
pub use driving::drive;
