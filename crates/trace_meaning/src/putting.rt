ghost use Rattle.std.specs.Prelude.{◌≡◌, [], OnOk, IfErr};
ghost use Rattle.io_edge.specs.Causes.{HasCause};
ghost use Rattle.io_edge.specs.Told.{Takes, TakesProperPrefix, TakesFront};

use crate::Outcome;
use io_edge::{PieceWriter, Sink};

/// Puts all that is pending.
pub fn put_pending<K: Sink>(pieces: &mut PieceWriter, out: &mut K) -> Result<(), Outcome>
    ensures front { TakesFront (K.taken out.old) (K.taken out.new) pieces.old pieces.new }
    ensures whole { OnOk result (Takes (K.taken out.old) (K.taken out.new) pieces.old) }
    ensures silent { OnOk result (pieces.new ≡ []) }
    ensures part { IfErr result (λ outcome. TakesProperPrefix (K.taken out.old) (K.taken out.new) pieces.old) }
    ensures fault { IfErr result (λ outcome. outcome ≡ Outcome.WriteFault) }
    ensures cause { HasCause (K.faults out.old) (K.faults out.new) result }
{
    match pieces.put(out) {
        Ok(()) => Ok(()),
        Err(_) => Err(Outcome::WriteFault),
    }
}
