ghost use Rattle.std.specs.Prelude.{◌≡◌};
ghost use Rattle.conn_state.specs.Names.{name_of};
ghost use Rattle.conn_state.specs.State.{facts_of, HasShape};

use crate::names::name_of;
use crate::{
    Duplex, Inbound, InboundIdle, OutboundDup, OutboundIdle, OutboundUni, ReservedOutbound,
    Terminating, Unnegotiated,
};
use net_base::{Facts, StateName};

/// A connection in one of its states.
#[derive(Drop)]
pub enum ConnState {
    ReservedOutbound(ReservedOutbound),
    Unnegotiated(Unnegotiated),
    OutboundUni(OutboundUni),
    OutboundDup(OutboundDup),
    InboundIdle(InboundIdle),
    Inbound(Inbound),
    Duplex(Duplex),
    OutboundIdle(OutboundIdle),
    Terminating(Terminating),
}

impl ConnState {
    /// What is known of the connection.
    pub fn facts(&self) -> Facts
        ensures value { result ≡ facts_of self.now }
        ensures shape { HasShape self.now }
    {
        *self.as_facts()
    }

    /// What is known of the connection, lent.
    pub fn as_facts(&self) -> &Facts
        ensures value { result.now ≡ facts_of self.now }
        ensures shape { HasShape self.now }
    {
        match self {
            ConnState::ReservedOutbound(state) => &state.facts,
            ConnState::Unnegotiated(state) => &state.facts,
            ConnState::OutboundUni(state) => &state.facts,
            ConnState::OutboundDup(state) => &state.facts,
            ConnState::InboundIdle(state) => &state.facts,
            ConnState::Inbound(state) => &state.facts,
            ConnState::Duplex(state) => &state.facts,
            ConnState::OutboundIdle(state) => &state.facts,
            ConnState::Terminating(state) => &state.facts,
        }
    }

    /// The name of the state, as in the Ouroboros network specification's connection manager.
    pub fn name(&self) -> StateName
        ensures { result ≡ name_of (facts_of self.now) }
    {
        name_of(self.as_facts())
    }
}
