ghost use Rattle.std.specs.Prelude.{◌≡◌, MatchResult};
ghost use Rattle.hs_message.specs.declared.refusal.ReadRefusal.{ReadRefusal};
ghost use Rattle.net_base.specs.declared.action.FaultKind.{FaultKind};
ghost use Rattle.hs_receive.specs.Receiving.{kind_of};

use hs_message::ReadRefusal;
use mux_segment::CutFault;
use net_base::{FaultKind, OutOfMemory};

/// The kind of a fault that ends a stream.
pub fn kind_of(fault: CutFault) -> FaultKind
    ensures { result ≡ kind_of fault }
{
    match fault {
        CutFault::Bad => FaultKind::Malformed,
        CutFault::Deep => FaultKind::Deep,
        CutFault::TooLong => FaultKind::TooLong,
        CutFault::UnknownId => FaultKind::UnknownId,
    }
}

/// The kind of the fault that a refused message is. Want of memory is none.
pub fn fault_of(refusal: ReadRefusal) -> Result<FaultKind, OutOfMemory>
    ensures { MatchResult result (λ kind. (kind ≡ FaultKind.Malformed) × (refusal ≡ ReadRefusal.NotAMessage)) (λ memory. refusal ≡ ReadRefusal.OutOfMemory) }
{
    match refusal {
        ReadRefusal::NotAMessage => Ok(FaultKind::Malformed),
        ReadRefusal::OutOfMemory => Err(OutOfMemory),
    }
}
