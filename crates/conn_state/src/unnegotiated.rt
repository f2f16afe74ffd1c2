ghost use Rattle.std.specs.Prelude.{◌≡◌, ℕ, true, false};
ghost use Rattle.conn_state.specs.Moves.{accepted, agreed_inbound, agreed_outbound};
ghost use Rattle.conn_state.specs.Use.{is_outbound};

use crate::responders::none_running;
use crate::{InboundIdle, OutboundDup, OutboundUni};
use net_base::{Addr, Agreed, Cid, Facts, Grace, Phase, Provenance};
use std::marker::Model;

/// The socket is open and the handshake is under way.
#[derive(Drop)]
pub struct Unnegotiated {
    pub(crate) facts: Facts,
}

impl Model for Unnegotiated {
    ghost use Rattle.net_base.specs.declared.connection.Facts.{Facts};
    ghost use Rattle.conn_state.specs.Shapes.{IsUnnegotiated};

    ghost Value = { Facts };

    ghost view = { λ s. s.facts };

    ghost invariant = { λ s. IsUnnegotiated s.facts };
}

impl Unnegotiated {
    /// A peer has connected, and its handshake may take until a moment.
    pub fn accepted(cid: Cid, addr: Addr, until: u64) -> Unnegotiated
        ensures { result ≡ accepted cid.0 addr until }
    {
        Unnegotiated {
            facts: Facts {
                cid,
                addr,
                provenance: Provenance::FromRemote,
                phase: Phase::Greeting(until),
                agreed: None,
                local: false,
                running: none_running(),
                grace: Grace::Off,
            },
        }
    }

    /// The handshake of an inbound connection is over. It is kept for the other side until a moment.
    pub fn agreed_in(self, agreed: Agreed, until: u64) -> InboundIdle
        requires { is_outbound self ≡ false }
        ensures { result ≡ agreed_inbound agreed until self }
    {
        InboundIdle {
            facts: Facts {
                phase: Phase::Negotiated,
                agreed: Some(agreed),
                grace: Grace::ForRemote(until),
                ..self.facts
            },
        }
    }

    /// The handshake of an outbound connection is over, and both sides may run protocols. This side uses it, and the
    /// other side may begin to until a moment.
    pub fn agreed_dup(self, agreed: Agreed, until: u64) -> OutboundDup
        requires outbound { is_outbound self ≡ true }
        requires duplex { agreed.initiator_only ≡ false }
        ensures { result ≡ agreed_outbound agreed until self }
    {
        OutboundDup {
            facts: Facts {
                phase: Phase::Negotiated,
                agreed: Some(agreed),
                local: true,
                grace: Grace::ForRemote(until),
                ..self.facts
            },
        }
    }

    /// The handshake of an outbound connection is over, and this side alone may run protocols. It uses it, so no moment
    /// matters.
    pub fn agreed_uni(self, agreed: Agreed) -> OutboundUni
        requires outbound { is_outbound self ≡ true }
        requires unidirectional { agreed.initiator_only ≡ true }
        ensures { (until : ℕ) → result ≡ agreed_outbound agreed until self }
    {
        OutboundUni {
            facts: Facts {
                phase: Phase::Negotiated,
                agreed: Some(agreed),
                local: true,
                ..self.facts
            },
        }
    }
}
