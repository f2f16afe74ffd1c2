//! The machine in a world, by whatever steps as the machine does: driven over the world's events, with a trace written of it.
#![tactic(auto)]

mod driving;

pub use driving::drive_by;
