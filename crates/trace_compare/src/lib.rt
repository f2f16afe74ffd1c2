//! How the lines of a trace compare with those that are written for it, and what is written of a run of the machine. The
//! definitions are in `specs/`, and the only code is laws, and functions that tell what types say.
#![tactic(auto)]

mod holding;
pub mod law;

pub use holding::{hold_address, hold_event};
