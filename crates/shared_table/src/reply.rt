use conn_table::GraceEnd;
use net_base::{Cid, StateName};

/// What a call is answered.
#[derive(Clone, Copy, PartialEq, Eq)]
pub enum TableReply {
    /// A connection was entered under this id.
    Made(Cid),
    /// The table made the move.
    Done,
    /// The connection is in local use from now on, and the table keeps its lease.
    Leased(Cid),
    /// No live connection has the address.
    NoSuch,
    /// The live connection of the address, whose state is named, is not to be had.
    NotReusable(StateName),
    /// What became of the connection whose grace is over.
    Grace(GraceEnd),
    /// What the call asks for does not hold. The table is as it was.
    Unmet,
}
