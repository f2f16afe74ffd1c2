//! Segments of the multiplexer: a stream cut into them, the items of each protocol, and payloads as segments.
#![tactic(auto)]

mod bodies;
mod bytes;
mod cutter;
mod fault;
mod fed;
mod framing;
mod header;
mod item;
pub mod law;
mod lent_item;
mod packed;
mod part;
mod parts;
mod segments;
mod stopped;
mod waiting;

pub use bodies::next_item;
pub use bytes::behind;
pub use cutter::Cutter;
pub use fault::CutFault;
pub use fed::Fed;
pub use framing::frame;
pub use header::{Header, INITIATOR, RESPONDER, read_header, write_header};
pub use item::{Item, ItemList};
pub use lent_item::LentItem;
pub use packed::PackedItems;
pub use segments::split_segment;
pub use waiting::Waiting;
