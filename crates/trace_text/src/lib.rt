//! The lines of a trace: reading them, and printing actions as lines.
#![tactic(auto)]

mod address;
mod decimal;
mod event;
mod event_text;
mod front_text;
mod group_text;
mod head_text;
pub mod law;
mod line;
mod line_text;
mod lower_hex;
mod magic;
mod piece;
mod pieces;
mod print;
mod printed_line;
mod pushing;
mod read;
mod setting;
mod stage;
mod text;
mod words;

pub use address::read_address;
pub use event_text::print_event;
pub use head_text::print_head;
pub use line::{HeadLine, Line, LineRefusal};
pub use magic::read_magic;
pub use piece::bytes_text;
pub use print::{fault_words, print_action};
pub use printed_line::PrintedLine;
pub use pushing::{push_hex, push_number, push_text};
pub use read::read_line;
pub use stage::Stage;
pub use words::Words;
