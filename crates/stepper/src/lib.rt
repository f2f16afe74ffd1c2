//! What steps as the machine does, over whatever keeps its record.
#![tactic(auto)]

mod stepper;

pub use stepper::Stepper;
