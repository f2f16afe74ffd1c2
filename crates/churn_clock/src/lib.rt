//! Churn: the targets that hold at a moment, and when they change next.
#![tactic(auto)]

mod windows;

pub use windows::{effective, effective_big, next_change};
