//! What the rules see of each connection, in order of address and then id.
#![tactic(auto)]

mod link;
mod link_row;
mod linked;

pub use link::place_of;
pub use linked::Links;
