ghost use Rattle.std.specs.Prelude.{◌≡◌, IfOk, OnOk};
ghost use Rattle.hs_receive.specs.Receiving.{CanBeAnswered};
ghost use Rattle.pair_net.specs.Ends.{hearing};
ghost use Rattle.pair_net.specs.Hearing.{heard, heard_first, phase_by, phase_after, IfHeard};

use crate::end_state::EndState;
use crate::{EndCause, EndPhase};
use hs_decide::{Role, Verdict};
use hs_message::VersionInfo;
use hs_receive::{Received, kind_of, receive};
use mux_segment::{CutFault, Cutter, Item};
use net_base::{FaultKind, OutOfMemory};
use std::alloc::Global;
use std::mem;

/// What an end that waits makes of new bytes, or None where it waits on. What stands behind the first item is dropped.
pub(crate) fn hear(
    alloc: Global,
    role: Role,
    bytes: &[u8],
    near: &mut EndState,
) -> Result<Option<Received>, OutOfMemory>
    ensures heard { IfOk result (λ received. received ≡ heard role near.old.info near.old.stream bytes.now) }
    ensures end { OnOk result (near.new ≡ hearing bytes.now near.old) }
    ensures answerable { IfOk result (IfHeard CanBeAnswered) }
{
    let stream = mem::replace(&mut near.stream, Cutter::new(alloc));
    let (stream, fed) = stream.feed(bytes)?;
    near.stream = stream;
    hear_first(alloc, role, &near.info, fed.items.as_slice(), fed.fault)
}

fn hear_first(
    alloc: Global,
    role: Role,
    own: &VersionInfo,
    items: &[Item],
    fault: Option<CutFault>,
) -> Result<Option<Received>, OutOfMemory>
    ensures heard { IfOk result (λ received_as. received_as ≡ heard_first role own.now items.now fault) }
    ensures answerable { IfOk result (IfHeard CanBeAnswered) }
{
    match items {
        [first, ..] => Ok(Some(receive(alloc, role, own, &first.as_lent())?)),
        [] => Ok(fault.map(|fault| Received::Fault(kind_of(fault)))),
    }
}

/// How far an end comes by what it has received.
pub(crate) fn phase_after(received: Received) -> EndPhase
    ensures { result ≡ phase_after received }
{
    match received {
        Received::Decided(verdict) => phase_by(verdict),
        Received::Fault(kind) => EndPhase::Ended(EndCause::Fault(kind)),
    }
}

fn phase_by(verdict: Verdict) -> EndPhase
    ensures { result ≡ phase_by verdict }
{
    match verdict {
        Verdict::Accept(agreed) | Verdict::Agree(agreed) => EndPhase::Agreed(agreed),
        Verdict::Refuse(_) | Verdict::Refused => EndPhase::Ended(EndCause::Refused),
        Verdict::Query => EndPhase::Ended(EndCause::Query),
        Verdict::Wrong => EndPhase::Ended(EndCause::Fault(FaultKind::Protocol)),
    }
}
