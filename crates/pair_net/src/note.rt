ghost use Rattle.std.specs.Prelude.{◌≡◌, ◌++◌, OnOk};
ghost use Rattle.pair_net.specs.Notes.{told};

use crate::{End, EndCause, EndPhase};
use hs_decide::Role;
use net_base::{Agreed, Octets, OutOfMemory, Sequence};

/// What is told of a step.
#[derive(PartialEq, Drop)]
pub enum PairNote {
    Waits(End, Role),
    /// An end has put these bytes into the pipe towards the other one.
    Sent(End, Octets),
    Agrees(End, Agreed),
    Ends(End, EndCause),
}

/// Notes one after another.
pub type NoteList = Sequence<PairNote>;

/// Tells the phase that an end has come to.
pub(crate) fn tell(notes: &mut NoteList, end: End, phase: EndPhase) -> Result<(), OutOfMemory>
    ensures { OnOk result (notes.new ≡ notes.old ++ told end phase) }
{
    match phase {
        EndPhase::Fresh => Ok(()),
        EndPhase::Waiting(role) => notes.push(PairNote::Waits(end, role)),
        EndPhase::Agreed(agreed) => notes.push(PairNote::Agrees(end, agreed)),
        EndPhase::Ended(cause) => notes.push(PairNote::Ends(end, cause)),
    }
}
