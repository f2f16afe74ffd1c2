ghost use Rattle.std.specs.Prelude.{◌≡◌};
ghost use Rattle.network_sim.specs.Seat.{Agrees};

use io_edge::PieceWriter;
use net_base::Octets;

/// The whole trace of a node.
#[derive(Drop)]
pub(crate) struct Trace {
    pub head: Octets,
    pub lines: PieceWriter,
    ghost agrees: { ∥ Agrees head lines ∥₁ },
}
