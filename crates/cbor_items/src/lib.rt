//! Items of CBOR (RFC 8949): where the first one ends, and the heads of items, read and written.
#![tactic(auto)]

mod front;
mod halt;
mod head;
mod initial;
mod item;
mod item_scan;
pub mod law;
mod level;
mod opening;
mod scan;
mod stack;
mod stop;

pub use front::{Absent, split_definite, split_head, split_number};
pub use head::{Head, read_head, write_head};
pub use initial::{ARRAY, BREAK, FALSE, MAP, NUMBER, TEXT, TRUE};
pub use item_scan::ItemScan;
pub use scan::{Scan, first_item};
