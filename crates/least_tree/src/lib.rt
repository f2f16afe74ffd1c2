//! A row of numbers, of which the least is a look; and two numbers as one, so that pairs can stand in such a row.
#![tactic(auto)]

mod keys;
mod node;
mod tree;

pub use keys::{key, second};
pub use tree::{LeastTree, NONE};
