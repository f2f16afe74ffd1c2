//! What comes of one segment of a client.

ghost use Rattle.std.specs.Prelude.{◌≡◌, ◌≤◌, ℕ, List, [], ◌∷◌, ◌++◌, drop, take, length, IfOk, OnOk, IsTrue, Some};
ghost use Rattle.mux_segment.specs.Steps.{segment_with};
ghost use Rattle.hs_message.specs.Reading.{client_message_of};
ghost use Rattle.local_clients.specs.Agreement.{CanAnswer};
ghost use Rattle.local_clients.specs.declared.context.Context.{Context};
ghost use Rattle.local_clients.specs.declared.phase.Phase.TheVariants.{Open};
ghost use Rattle.local_clients.specs.Hearing.{faults, goes_on, closes, sends, opens, concluded, item_heard, part_heard, payload_heard, segment_heard};

use crate::context::Context;
use crate::decision::{Decision, answer, decide};
use crate::phase::Phase;
use crate::protocol::header_fault;
use crate::{ClientAction, ClientActions, ClientCause};
use cbor_items::first_item;
use hs_message::{Message, read_client_message};
use hs_receive::{fault_of, kind_of};
use mux_segment::{Header, RESPONDER, Waiting, frame, next_item};
use net_base::protocol::HANDSHAKE;
use net_base::{FaultKind, OutOfMemory};
use std::alloc::Global;

// How many bytes a message of the handshake may have.
const HANDSHAKE_LIMIT: usize = 5760;

/// An open client may send a segment with this header, and it is passed over.
pub(crate) fn is_passed_over(header: &Header) -> bool
    ensures { IsTrue result → (context : Context) (version : ℕ) (payload : List ℕ) →
        segment_heard context (Open version) (segment_with header.now payload) ≡ goes_on (Open version) }
{
    match header_fault(header) {
        Some(_) => false,
        None => header.id != HANDSHAKE,
    }
}

/// How far a client comes by a segment, or None where it is closed.
#[tactic(auto, unfolding(crate::specs::Hearing::segment_heard))]
pub(crate) fn hear_segment(
    alloc: Global,
    context: &Context,
    phase: Phase,
    header: &Header,
    payload: &[u8],
    actions: &mut ClientActions,
) -> Result<Option<Phase>, OutOfMemory>
    ensures phase { IfOk result (λ next. next ≡ (segment_heard context.now phase (segment_with header.now payload.now)).phase) }
    ensures actions { OnOk result (actions.new ≡ actions.old ++ (segment_heard context.now phase (segment_with header.now payload.now)).actions) }
{
    if let Some(kind) = header_fault(header) {
        return close_for(context, kind, actions);
    }
    if payload.is_empty() {
        return Ok(Some(phase));
    }
    hear_payload(alloc, context, phase, header.id, payload, actions)
}

fn hear_payload(
    alloc: Global,
    context: &Context,
    phase: Phase,
    id: u16,
    payload: &[u8],
    actions: &mut ClientActions,
) -> Result<Option<Phase>, OutOfMemory>
    ensures phase { IfOk result (λ next. next ≡ (payload_heard context.now phase id payload.now).phase) }
    ensures actions { OnOk result (actions.new ≡ actions.old ++ (payload_heard context.now phase id payload.now).actions) }
{
    match phase {
        Phase::Greeting(until, part) if id == HANDSHAKE => {
            hear_handshake(alloc, context, until, part, payload, actions)
        }
        Phase::Open(version) if id != HANDSHAKE => Ok(Some(Phase::Open(version))),
        Phase::Greeting(..) | Phase::Open(_) => close_for(context, FaultKind::Protocol, actions),
    }
}

fn hear_handshake(
    alloc: Global,
    context: &Context,
    until: u64,
    part: Waiting,
    payload: &[u8],
    actions: &mut ClientActions,
) -> Result<Option<Phase>, OutOfMemory>
    ensures phase { IfOk result (λ next. next ≡ (part_heard context.now until (part ++ payload.now)).phase) }
    ensures actions { OnOk result (actions.new ≡ actions.old ++ (part_heard context.now until (part ++ payload.now)).actions) }
{
    // where nothing waits the item is scanned where it lies
    if part.as_slice().is_empty() {
        return hear_alone(alloc, context, until, payload, actions);
    }
    let mut part = part;
    let scan = part.extend(payload)?;
    match next_item(HANDSHAKE_LIMIT, part.as_slice(), scan) {
        Ok(None) => Ok(Some(Phase::Greeting(until, part))),
        Ok(Some(size)) => hear_item(alloc, context, part.as_slice(), size, actions),
        Err(fault) => close_for(context, kind_of(fault), actions),
    }
}

fn hear_alone(
    alloc: Global,
    context: &Context,
    until: u64,
    payload: &[u8],
    actions: &mut ClientActions,
) -> Result<Option<Phase>, OutOfMemory>
    ensures phase { IfOk result (λ next. next ≡ (part_heard context.now until payload.now).phase) }
    ensures actions { OnOk result (actions.new ≡ actions.old ++ (part_heard context.now until payload.now).actions) }
{
    match next_item(HANDSHAKE_LIMIT, payload, first_item(payload)) {
        Ok(None) => {
            let part = Waiting::from_slice(alloc, payload)?;
            Ok(Some(Phase::Greeting(until, part)))
        }
        Ok(Some(size)) => hear_item(alloc, context, payload, size, actions),
        Err(fault) => close_for(context, kind_of(fault), actions),
    }
}

// The first item of a part has this size.
fn hear_item(
    alloc: Global,
    context: &Context,
    part: &[u8],
    size: usize,
    actions: &mut ClientActions,
) -> Result<Option<Phase>, OutOfMemory>
    requires { size ≤ length part.now }
    ensures phase { IfOk result (λ next. next ≡ (item_heard context.now (drop size part.now) (client_message_of (take size part.now))).phase) }
    ensures actions { OnOk result (actions.new ≡ actions.old ++ (item_heard context.now (drop size part.now) (client_message_of (take size part.now))).actions) }
{
    let (item, left) = part.split_at(size);
    match read_client_message(alloc, item) {
        Ok(message) => hear_message(alloc, context, left, &message, actions),
        Err(refusal) => close_for(context, fault_of(refusal)?, actions),
    }
}

fn hear_message(
    alloc: Global,
    context: &Context,
    left: &[u8],
    message: &Message,
    actions: &mut ClientActions,
) -> Result<Option<Phase>, OutOfMemory>
    ensures phase { IfOk result (λ next. next ≡ (item_heard context.now left.now (Some message.now)).phase) }
    ensures actions { OnOk result (actions.new ≡ actions.old ++ (item_heard context.now left.now (Some message.now)).actions) }
{
    match message {
        Message::Propose(table) => {
            let decision = decide(context.magic, table.as_slice());
            send(alloc, context, decision, actions)?;
            conclude(context, left, decision, actions)
        }
        Message::Accept(..) | Message::Refuse(_) | Message::QueryReply(_) => {
            close_for(context, FaultKind::Protocol, actions)
        }
    }
}

// The answer to a proposal goes out.
fn send(
    alloc: Global,
    context: &Context,
    decision: Decision,
    actions: &mut ClientActions,
) -> Result<(), OutOfMemory>
    requires { CanAnswer decision }
    ensures { OnOk result (actions.new ≡ actions.old ++ sends context.now decision ∷ []) }
{
    let message = answer(alloc, context.magic, decision)?;
    let bytes = frame(
        alloc,
        RESPONDER,
        HANDSHAKE,
        context.moment,
        message.as_slice(),
    )?;
    actions.push(ClientAction::Send(context.client, bytes))
}

// What follows the answer.
fn conclude(
    context: &Context,
    left: &[u8],
    decision: Decision,
    actions: &mut ClientActions,
) -> Result<Option<Phase>, OutOfMemory>
    ensures phase { IfOk result (λ next. next ≡ (concluded context.now left.now decision).phase) }
    ensures actions { OnOk result (actions.new ≡ actions.old ++ (concluded context.now left.now decision).actions) }
{
    match decision {
        Decision::NoCommon | Decision::NotUnderstood(_) | Decision::OtherMagic(_) => {
            close(context, ClientCause::Refused, actions)
        }
        Decision::Asked => close(context, ClientCause::Query, actions),
        Decision::Agreed(version) => open_client(context, left, version, actions),
    }
}

fn open_client(
    context: &Context,
    left: &[u8],
    version: u64,
    actions: &mut ClientActions,
) -> Result<Option<Phase>, OutOfMemory>
    ensures phase { IfOk result (λ next. next ≡ (opens context.now version left.now).phase) }
    ensures actions { OnOk result (actions.new ≡ actions.old ++ (opens context.now version left.now).actions) }
{
    actions.push(ClientAction::Open(context.client, version))?;
    if left.is_empty() {
        Ok(Some(Phase::Open(version)))
    } else {
        close_for(context, FaultKind::Protocol, actions)
    }
}

fn close_for(
    context: &Context,
    kind: FaultKind,
    actions: &mut ClientActions,
) -> Result<Option<Phase>, OutOfMemory>
    ensures phase { IfOk result (λ next. next ≡ (faults context.now kind).phase) }
    ensures actions { OnOk result (actions.new ≡ actions.old ++ (faults context.now kind).actions) }
{
    close(context, ClientCause::Fault(kind), actions)
}

fn close(
    context: &Context,
    cause: ClientCause,
    actions: &mut ClientActions,
) -> Result<Option<Phase>, OutOfMemory>
    ensures phase { IfOk result (λ next. next ≡ (closes context.now cause).phase) }
    ensures actions { OnOk result (actions.new ≡ actions.old ++ (closes context.now cause).actions) }
{
    actions.push(ClientAction::Close(context.client, cause))?;
    Ok(None)
}
