//! A list in chunks: an item that is put in or taken out moves no more than a chunk of the others.
#![tactic(auto)]

mod change;
mod chunk;
mod edit;
mod first;
mod list;
mod point;
mod search;
mod spot;

pub use change::Change;
pub use list::ChunkedList;
