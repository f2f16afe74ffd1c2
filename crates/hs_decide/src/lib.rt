//! What two nodes agree on in the handshake, and what an acceptor answers. The handshake follows the Ouroboros network
//! specification in outline. The rule of agreement and the answers are this project's own.
#![tactic(auto)]

mod answering;
mod deciding;
pub mod law;
mod role;
mod verdict;

pub use answering::{answer, proposal};
pub use deciding::decide;
pub use role::Role;
pub use verdict::{Verdict, Why};
