//! Groups of local root peers without doubles.
//!
//! The map that keeps each local address with its group, in file order, stands in the body alone: it is in no type that
//! others see.
#![tactic(auto)]

mod groups;
mod hashed;
mod places;

pub use groups::clean;
