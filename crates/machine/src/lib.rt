//! The machine that a node is: its record, its step for each event, and its run over a list of events.
//!
//! The definitions are in `specs/`. The only code is a function without a body, whose contract is that the machine
//! does what worked traces say.
#![tactic(auto)]

pub mod law;

pub use net_base::{Action, Event, Settings};
