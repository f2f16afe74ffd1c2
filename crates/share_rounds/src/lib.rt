//! Peer sharing: which peers are told to one that asks, and which of those that one tells are taken.
#![tactic(auto)]

mod keep;
pub mod law;
mod serving;
mod taking;

pub use serving::{served, served_among, tellable};
pub use taking::fresh;
