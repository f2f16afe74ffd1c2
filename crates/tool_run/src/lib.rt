//! The program over all that it is handed: it does what the words ask for, and says with which status the process ends.
#![tactic(auto)]

mod dispatching;

pub use dispatching::dispatch;
