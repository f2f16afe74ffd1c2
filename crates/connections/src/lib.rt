//! The connections of a node: what is read, owed and timed of each, and what the rules see of it.
#![tactic(auto)]

mod connections;
mod decoded;
mod kept;
mod link;
mod replies;
mod reply;
mod sight;
mod talk;
mod timed;

pub use connections::Connections;
pub use decoded::Decoded;
pub use reply::Reply;
