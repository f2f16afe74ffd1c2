use io_edge::PieceWriter;
use net_base::Octets;

/// The trace of a node, without its end.
#[derive(Drop)]
pub(crate) struct Kept {
    pub head: Octets,
    pub lines: PieceWriter,
}
