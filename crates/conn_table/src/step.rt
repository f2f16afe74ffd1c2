ghost use Rattle.std.specs.Prelude.{◌≡◌, ℕ, true};
ghost use Rattle.conn_state.specs.Moves.{connected, agreed_outbound, acquired, released, awakened, idled};
ghost use Rattle.conn_table.specs.Choices.{negotiated, grace_ended};
ghost use Rattle.conn_state.specs.Protocols.{has_responder};
ghost use Rattle.conn_state.specs.State.{facts_of, HasShape, as_released, as_after_inbound, as_after_duplex};
ghost use Rattle.conn_state.specs.Use.{is_dialing, is_greeting, is_outbound, is_acquirable, runs};
ghost use Rattle.conn_table.specs.Answers.{is_due};
ghost use Rattle.conn_table.specs.Conditions.{CanStep, CanAwake, after_step};
ghost use Rattle.conn_table.specs.Turned.{HasTurned};
ghost use Rattle.net_base.specs.declared.connection.Facts.{Facts};

use chunked_list::Change;
use conn_state::facts::{is_counted, is_outbound};
use conn_state::{AfterDuplex, AfterInbound, ConnState, Released, ReservedOutbound, Unnegotiated};
use net_base::{Addr, Agreed, Cid, Facts, Ip};
use std::mem;

/// A move of a connection that stands. The moment of each is the one until which what it begins may last.
#[derive(Clone, Copy, PartialEq, Eq)]
pub enum Step {
    /// The dialed socket is open, and the handshake may last until a moment.
    Connected(u64),
    /// The handshake is over. A grace that it gives lasts until a moment.
    Negotiated(Agreed, u64),
    /// This side takes the connection into use.
    Acquire,
    /// This side uses the connection no more. A grace that this gives lasts until a moment.
    Release(u64),
    /// The other side starts the responder of a protocol.
    Awake(u16),
    /// The responder of a protocol stops. A grace that this gives lasts until a moment.
    Idle(u16, u64),
    /// The grace is over. Where nobody uses the connection, this side closes it, for a time-wait until a moment.
    GraceOver(u64),
}

// What is told of a move.
pub struct Turned {
    // what was known of the connection before
    pub was: Facts,
    // whether the limits count it then
    pub counted: bool,
}

impl Change<ConnState> for Step {
    type Answer = Turned;

    ghost may = { λ step state. CanStep step (facts_of state) };

    ghost does = { λ step old new turned. HasTurned step old new turned };

    fn apply(self, state: &mut ConnState) -> Turned {
        let old = mem::replace(state, spare());
        let was = old.facts();
        *state = stepped(old, self);
        let counted = is_counted(state.as_facts());
        Turned { was, counted }
    }
}

// What stands at a place while its state makes a move.
fn spare() -> ConnState {
    let addr = Addr {
        ip: Ip::V4(0),
        port: 0,
    };
    ConnState::ReservedOutbound(ReservedOutbound::new(Cid(0), addr))
}

// The state after a move that it has.
fn stepped(state: ConnState, step: Step) -> ConnState
    requires shape { HasShape state }
    requires can { CanStep step (facts_of state) }
    ensures { facts_of result ≡ after_step step (facts_of state) }
{
    match step {
        Step::Connected(until) => connected(state, until),
        Step::Negotiated(agreed, until) => negotiated(state, agreed, until),
        Step::Acquire => acquired(state),
        Step::Release(until) => released(state, until),
        Step::Awake(protocol) => awakened(state, protocol),
        Step::Idle(protocol, until) => idled(state, protocol, until),
        Step::GraceOver(until) => grace_ended(state, until),
    }
}

fn connected(state: ConnState, until: u64) -> ConnState
    requires shape { HasShape state }
    requires dialing { is_dialing (facts_of state) ≡ true }
    ensures { facts_of result ≡ connected until (facts_of state) }
{
    match state {
        ConnState::ReservedOutbound(state) => ConnState::Unnegotiated(state.connected(until)),
        _ => unreachable!(),
    }
}

fn negotiated(state: ConnState, agreed: Agreed, until: u64) -> ConnState
    requires shape { HasShape state }
    requires greeting { is_greeting (facts_of state) ≡ true }
    ensures { facts_of result ≡ negotiated agreed until (facts_of state) }
{
    let outbound = is_outbound(state.as_facts());
    match state {
        ConnState::Unnegotiated(state) if outbound => negotiated_outbound(state, agreed, until),
        ConnState::Unnegotiated(state) => ConnState::InboundIdle(state.agreed_in(agreed, until)),
        _ => unreachable!(),
    }
}

fn negotiated_outbound(state: Unnegotiated, agreed: Agreed, until: u64) -> ConnState
    requires { is_outbound state ≡ true }
    ensures { facts_of result ≡ agreed_outbound agreed until state }
{
    if agreed.initiator_only {
        ConnState::OutboundUni(state.agreed_uni(agreed))
    } else {
        ConnState::OutboundDup(state.agreed_dup(agreed, until))
    }
}

fn acquired(state: ConnState) -> ConnState
    requires shape { HasShape state }
    requires acquirable { is_acquirable (facts_of state) ≡ true }
    ensures { facts_of result ≡ acquired (facts_of state) }
{
    match state {
        ConnState::InboundIdle(state) => ConnState::OutboundDup(state.acquire()),
        ConnState::Inbound(state) => ConnState::Duplex(state.acquire()),
        _ => unreachable!(),
    }
}

fn released(state: ConnState, until: u64) -> ConnState
    requires shape { HasShape state }
    requires used { (facts_of state).local ≡ true }
    ensures { facts_of result ≡ released until (facts_of state) }
{
    match state {
        ConnState::OutboundUni(state) => ConnState::OutboundIdle(state.release(until)),
        ConnState::OutboundDup(state) => state_after_release(state.release(until)),
        ConnState::Duplex(state) => ConnState::Inbound(state.release()),
        _ => unreachable!(),
    }
}

fn awakened(state: ConnState, protocol: u16) -> ConnState
    requires shape { HasShape state }
    requires known { has_responder protocol ≡ true }
    requires can { CanAwake protocol (facts_of state) }
    ensures { facts_of result ≡ awakened protocol (facts_of state) }
{
    match state {
        ConnState::OutboundDup(state) => ConnState::Duplex(state.awake(protocol)),
        ConnState::InboundIdle(state) => ConnState::Inbound(state.awake(protocol)),
        ConnState::Inbound(state) => ConnState::Inbound(state.awake(protocol)),
        ConnState::Duplex(state) => ConnState::Duplex(state.awake(protocol)),
        ConnState::OutboundIdle(state) => ConnState::Inbound(state.awake(protocol)),
        _ => unreachable!(),
    }
}

fn idled(state: ConnState, protocol: u16, until: u64) -> ConnState
    requires shape { HasShape state }
    requires running { runs protocol (facts_of state).running ≡ true }
    ensures { facts_of result ≡ idled protocol until (facts_of state) }
{
    match state {
        ConnState::Inbound(state) => state_after_inbound(state.idle(protocol, until)),
        ConnState::Duplex(state) => state_after_duplex(state.idle(protocol, until)),
        _ => unreachable!(),
    }
}

fn grace_ended(state: ConnState, until: u64) -> ConnState
    requires shape { HasShape state }
    requires due { (now : ℕ) × (is_due now (facts_of state).grace ≡ true) }
    ensures { facts_of result ≡ grace_ended until (facts_of state) }
{
    match state {
        ConnState::OutboundDup(state) => ConnState::OutboundDup(state.grace_over()),
        ConnState::InboundIdle(state) => ConnState::Terminating(state.grace_over(until)),
        ConnState::OutboundIdle(state) => ConnState::Terminating(state.grace_over(until)),
        _ => unreachable!(),
    }
}

fn state_after_release(released: Released) -> ConnState
    ensures { (f : Facts) → released ≡ as_released f → facts_of result ≡ f }
{
    match released {
        Released::ToInboundIdle(state) => ConnState::InboundIdle(state),
        Released::ToOutboundIdle(state) => ConnState::OutboundIdle(state),
    }
}

fn state_after_inbound(after: AfterInbound) -> ConnState
    ensures { (f : Facts) → after ≡ as_after_inbound f → facts_of result ≡ f }
{
    match after {
        AfterInbound::Still(state) => ConnState::Inbound(state),
        AfterInbound::Quiet(state) => ConnState::InboundIdle(state),
    }
}

fn state_after_duplex(after: AfterDuplex) -> ConnState
    ensures { (f : Facts) → after ≡ as_after_duplex f → facts_of result ≡ f }
{
    match after {
        AfterDuplex::Still(state) => ConnState::Duplex(state),
        AfterDuplex::Quiet(state) => ConnState::OutboundDup(state),
    }
}
