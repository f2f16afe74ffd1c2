ghost use Rattle.std.specs.Prelude.{◌≡◌, IfOk, Some};
ghost use Rattle.hs_message.specs.Reading.{message_of};
ghost use Rattle.hs_receive.specs.Receiving.{receives, receives_message, CanBeAnswered};
ghost use Rattle.mux_segment.specs.Lent.{lent};

use crate::{Received, fault_of, fits_side, is_awaited};
use hs_decide::{Role, decide};
use hs_message::{Message, VersionInfo, read_message};
use mux_segment::LentItem;
use net_base::protocol::HANDSHAKE;
use net_base::{FaultKind, OutOfMemory};
use std::alloc::Global;

/// What an item comes to in the handshake, for a node on this side of it that says this of itself. The first that decides: an item
/// of another protocol is fault Protocol, and so is one on a side that is not awaited; one that spells no message is
/// fault Malformed; a message of the other side is fault Protocol; else it is decided.
pub fn receive(
    alloc: Global,
    role: Role,
    own: &VersionInfo,
    item: &LentItem<'_>,
) -> Result<Received, OutOfMemory>
    ensures received { IfOk result (λ received.
        received ≡ receives Received.Fault Received.Decided role own.now (lent item.now)) }
    // What was decided can be answered.
    ensures answerable { IfOk result CanBeAnswered }
{
    if item.id == HANDSHAKE && is_awaited(role, item.side) {
        receive_body(alloc, role, own, item)
    } else {
        Ok(Received::Fault(FaultKind::Protocol))
    }
}

// An item of the handshake comes in, on a side that is awaited.
fn receive_body(
    alloc: Global,
    role: Role,
    own: &VersionInfo,
    item: &LentItem<'_>,
) -> Result<Received, OutOfMemory>
    ensures received { IfOk result (λ received.
        received ≡ receives_message Received.Fault Received.Decided role own.now item.now.side (message_of item.now.body.now)) }
    ensures answerable { IfOk result CanBeAnswered }
{
    match read_message(alloc, item.body) {
        Ok(message) => Ok(receive_message(role, own, item.side, &message)),
        Err(refusal) => Ok(Received::Fault(fault_of(refusal)?)),
    }
}

// A message of the handshake comes in.
fn receive_message(role: Role, own: &VersionInfo, side: u8, message: &Message) -> Received
    ensures received { result ≡ receives_message Received.Fault Received.Decided role own.now side (Some message.now) }
    ensures answerable { CanBeAnswered result }
{
    if fits_side(role, side, message) {
        Received::Decided(decide(role, own, message))
    } else {
        Received::Fault(FaultKind::Protocol)
    }
}
