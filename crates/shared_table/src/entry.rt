use crate::{Log, TableCall, TableReply, Who};

/// A call in the history of a table.
#[derive(Clone, Copy, PartialEq, Eq)]
pub struct Entry {
    pub who: Who,
    pub call: TableCall,
    pub reply: TableReply,
}

/// A call as its caller keeps it.
#[derive(Clone, Copy, PartialEq, Eq)]
pub struct Noted {
    pub call: TableCall,
    pub reply: TableReply,
}

/// The calls on a table, in the order in which they were made.
pub type History = Log<Entry>;

/// The calls of one caller, in the order in which it made them.
pub type NotedList = Log<Noted>;
