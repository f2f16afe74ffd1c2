ghost use Rattle.std.specs.Prelude.{◌≡◌, ◌<◌, ◌≤◌, ℕ, List, Option, length, take, drop, IfOk, OnOk, OnErr};
ghost use Rattle.io_edge.specs.Causes.{HasCause};
ghost use Rattle.io_edge.specs.Told.{Takes, TakesFront, TakesProperPrefix};

use crate::Failed;

/// Where bytes are written to.
pub trait Sink {
    /// The bytes that were taken, where the sink tells them.
    ghost taken: { Self → Option (List ℕ) };

    /// How many calls failed.
    ghost faults: { Self → ℕ };

    /// Takes the first bytes of a piece, at least one where it has one, and answers how many.
    fn put(&mut self, piece: &[u8]) -> Result<usize, Failed>
        ensures bound { IfOk result (λ n. n ≤ length piece.now) }
        ensures progress { IfOk result (λ n. 0 < length piece.now → 0 < n) }
        ensures bytes { IfOk result (λ n. Takes (taken self.old) (taken self.new) (take n piece.now)) }
        ensures untouched { OnErr result (taken self.new ≡ taken self.old) }
        ensures cause { HasCause (faults self.old) (faults self.new) result };
}

/// Has the whole piece taken, by as many calls as that needs. After a fault a front of it was taken, and not all.
pub fn put_all<K: Sink>(sink: &mut K, piece: &[u8]) -> Result<(), Failed>
    ensures whole { OnOk result (Takes (K.taken sink.old) (K.taken sink.new) piece.now) }
    ensures part { OnErr result (TakesProperPrefix (K.taken sink.old) (K.taken sink.new) piece.now) }
    ensures cause { HasCause (K.faults sink.old) (K.faults sink.new) result }
{
    put_from(&mut 0, piece, sink)
}

/// Has the bytes behind those that were put already taken.
pub(crate) fn put_from<K: Sink>(done: &mut usize, bytes: &[u8], sink: &mut K) -> Result<(), Failed>
    requires { done.old ≤ length bytes.now }
    ensures within { done.new ≤ length bytes.now }
    ensures front { TakesFront (K.taken sink.old) (K.taken sink.new) (drop done.old bytes.now) (drop done.new bytes.now) }
    ensures whole { OnOk result (done.new ≡ length bytes.now) }
    ensures part { OnErr result (done.new < length bytes.now) }
    ensures cause { HasCause (K.faults sink.old) (K.faults sink.new) result }
{
    'calls: while *done < bytes.len() {
        *done += sink.put(&bytes[*done..])?;
    }
    Ok(())
}
