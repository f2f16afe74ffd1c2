//! What holds in every record that a run of the machine reaches.
//!
//! The functions do nothing. Each carries a law as its contract, and the law is proved.
//!
//! Begin with `specs/Laws.antt`, the laws on records in an operator's words. `specs/Records.antt` has all that hold in a
//! record, and `specs/Parts.antt` all that hold of an event and of each of its parts; each names the file that says it.
#![tactic(auto)]

mod lawful_runs;
mod laws;

pub use lawful_runs::runs_are_lawful;
pub use laws::{all_due_fires, laws_of_events, laws_of_records};
