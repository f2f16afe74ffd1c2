use crate::History;
use conn_table::ConnTable;

/// What two governors made of a table.
#[derive(Drop)]
pub struct Gathered {
    pub table: ConnTable,
    /// The calls of both, which lead from no connection to the table.
    pub history: History,
    /// How many calls the outbound governor made.
    pub made_out: u64,
    /// How many calls the inbound governor made.
    pub made_in: u64,
}
