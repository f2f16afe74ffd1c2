//! The peers of a node: the book of those that are known, local groups, public roots, what is wanted of them, and what
//! is told to those that ask for addresses.
#![tactic(auto)]

mod entering;
mod peers;
mod rule;

pub use peers::Peers;
pub use rule::Rule;
