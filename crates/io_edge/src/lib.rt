//! Where bytes come from and where they go: sources, sinks, a reader of lines, and shelves of files. Sources and sinks
//! count their faults, and a fault is answered only where the count rose; a shelf tells its readings.
#![tactic(auto)]

mod dir_shelf;
mod failed;
mod got;
pub mod law;
mod line_fault;
mod line_reader;
mod mem_shelf;
mod mem_sink;
mod mem_source;
mod named_file;
mod piece_writer;
mod printed;
mod reading;
mod reading_log;
mod shelf;
mod shelf_refusal;
mod sink;
mod source;
mod std_sink;
mod std_source;
mod sure_source;
mod window;

pub use dir_shelf::DirShelf;
pub use failed::Failed;
pub use got::Got;
pub use line_fault::LineFault;
pub use line_reader::LineReader;
pub use mem_shelf::MemShelf;
pub use mem_sink::MemSink;
pub use mem_source::MemSource;
pub use named_file::{FileList, NamedFile};
pub use piece_writer::PieceWriter;
pub use printed::Printed;
pub use reading::Reading;
pub use shelf::Shelf;
pub use shelf_refusal::ShelfRefusal;
pub use sink::{Sink, put_all};
pub use source::Source;
pub use std_sink::StdSink;
pub use std_source::StdSource;
pub use sure_source::SureSource;
