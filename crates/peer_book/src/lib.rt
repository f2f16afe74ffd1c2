//! The peers that a node knows: looked up by address, listed by temperature and counted by class.
#![tactic(auto)]

mod added;
mod book;
mod kept;
mod leaving;
mod listed;
mod merge;
mod newcomers;
mod place;
mod row;
mod rows;
mod tally;

pub use added::Added;
pub use book::{MOST_PEERS, PeerBook};
pub use listed::Listed;
