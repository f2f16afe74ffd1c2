//! An engine that picks by this project's own scores, and to which nothing has happened yet.
#![tactic(auto)]

mod lent_engine;
mod pickers;
mod start;

pub use lent_engine::LentEngine;
pub use pickers::{Pickers, ranked_score, score};
pub use start::first_engine;
