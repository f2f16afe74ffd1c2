//! Whether one more connection is let in and how long accepting pauses behind it; and which connection goes where
//! there are too many.
#![tactic(auto)]

mod gate;
pub mod law;
mod prune;

pub use gate::{Gate, verdict};
pub use prune::{Candidate, first_of, prune_choice, rank};
