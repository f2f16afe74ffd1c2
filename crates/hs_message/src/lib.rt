//! Messages of the handshake: their spelling in CBOR (RFC 8949), read and written. The messages follow the node-to-node
//! handshake of the Ouroboros network specification in outline. How they are spelled here is this project's own. Local
//! clients of a node use the same messages with other versions and other infos.
#![tactic(auto)]

mod info;
pub mod law;
mod message;
mod message_code;
mod offer;
mod part;
mod profile;
mod read;
mod reason_code;
mod refusal;
mod tag;
mod write;

pub use info::{Info, VersionInfo};
pub use message::{Message, Reason};
pub use offer::{Offer, Table};
pub use profile::Profile;
pub use read::{read_client_message, read_message};
pub use refusal::ReadRefusal;
pub use write::{write_client_message, write_message};
