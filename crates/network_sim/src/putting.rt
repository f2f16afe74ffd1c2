ghost use Rattle.std.specs.Prelude.{◌≡◌, ◌++◌, OnOk};
ghost use Rattle.io_edge.specs.Causes.{HasCause};
ghost use Rattle.io_edge.specs.Told.{Takes};
ghost use Rattle.network_sim.specs.Traces.{HasFaultCount};
ghost use Rattle.network_sim.specs.declared.asked.RunEnd.{RunEnd};
ghost use Rattle.trace_compare.specs.Written.{TakesAgreeing};

use crate::asked::RunEnd;
use crate::trace::Trace;
use io_edge::{Failed, PieceWriter, Sink, put_all};

/// Writes a trace.
pub(crate) fn put_trace<K: Sink>(trace: Trace, out: &mut K) -> RunEnd
    ensures agrees { result ≡ RunEnd.Done → ∥ TakesAgreeing (K.taken out.old) (K.taken out.new) ∥₁ }
    ensures faults { HasFaultCount (K.faults out.old) (K.faults out.new) result }
{
    let Trace { head, lines } = trace;
    let mut lines = lines;
    match put_both(head.as_slice(), &mut lines, out) {
        Ok(()) => RunEnd::Done,
        Err(_) => RunEnd::WriteFault,
    }
}

// The head, and then the lines.
fn put_both<K: Sink>(head: &[u8], lines: &mut PieceWriter, out: &mut K) -> Result<(), Failed>
    ensures taken { OnOk result (Takes (K.taken out.old) (K.taken out.new) (head.now ++ lines.old)) }
    ensures cause { HasCause (K.faults out.old) (K.faults out.new) result }
{
    put_all(out, head)?;
    lines.put(out)?;
    Ok(())
}
