//! What is received in the handshake: an item, by the side of the handshake that receives it, comes to a verdict or a fault.
#![tactic(auto)]

mod cut;
mod received;
mod receiving;
mod side;

pub use cut::{fault_of, kind_of};
pub use received::Received;
pub use receiving::receive;
pub use side::{fits_side, is_awaited};
