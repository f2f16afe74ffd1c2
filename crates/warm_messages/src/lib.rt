//! The messages of keep-alive (mini-protocol 8) and peer sharing (mini-protocol 10), read and written, what this node says on
//! chain-sync (mini-protocol 2), and the first number of any item. The encodings follow the node-to-node protocols of Ouroboros in outline, and are this project's own.
#![tactic(auto)]

mod address;
mod alive;
mod array;
mod chain_sync;
mod first;
pub mod law;
pub mod message;
mod numbers;
mod share;
mod unread;

pub use alive::{ALIVE_DONE, Alive, read_alive, write_alive};
pub use chain_sync::{CHAIN_SYNC_DONE, FIND_INTERSECT};
pub use first::{first_number, item_number};
pub use net_base::AddrList as PeerItems;
pub use share::{SHARE_DONE, Share, read_share, write_peers, write_request};
