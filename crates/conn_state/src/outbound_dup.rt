ghost use Rattle.std.specs.Prelude.{◌≡◌, true};
ghost use Rattle.conn_state.specs.Moves.{awakened, expired, released};
ghost use Rattle.conn_state.specs.Protocols.{has_responder};
ghost use Rattle.conn_state.specs.State.{as_released};

use crate::responders::with_responder;
use crate::{Duplex, InboundIdle, OutboundIdle, Released};
use net_base::{Facts, Grace};
use std::marker::Model;

/// In use by this side alone, on a connection that both may use: ticking while the other side has time to begin, and
/// expired after it.
#[derive(Drop)]
pub struct OutboundDup {
    pub(crate) facts: Facts,
}

impl Model for OutboundDup {
    ghost use Rattle.net_base.specs.declared.connection.Facts.{Facts};
    ghost use Rattle.conn_state.specs.Shapes.{IsOutboundDup};

    ghost Value = { Facts };

    ghost view = { λ s. s.facts };

    ghost invariant = { λ s. IsOutboundDup s.facts };
}

impl OutboundDup {
    /// The other side starts a responder.
    pub fn awake(self, protocol: u16) -> Duplex
        requires { has_responder protocol ≡ true }
        ensures { result ≡ awakened protocol self }
    {
        Duplex {
            facts: Facts {
                running: with_responder(protocol, true, self.facts.running),
                grace: Grace::Off,
                ..self.facts
            },
        }
    }

    /// The other side had its time to begin.
    pub fn grace_over(self) -> OutboundDup
        ensures { result ≡ expired self }
    {
        OutboundDup {
            facts: Facts {
                grace: Grace::Off,
                ..self.facts
            },
        }
    }

    /// This side uses the connection no more. Where it is kept for the other side it stays so, and else it is kept for
    /// this side until a moment.
    pub fn release(self, until: u64) -> Released
        ensures { result ≡ as_released (released until self) }
    {
        match self.facts.grace {
            Grace::ForRemote(_) => Released::ToInboundIdle(InboundIdle {
                facts: Facts {
                    local: false,
                    ..self.facts
                },
            }),
            Grace::Off | Grace::ForLocal(_) => Released::ToOutboundIdle(OutboundIdle {
                facts: Facts {
                    local: false,
                    grace: Grace::ForLocal(until),
                    ..self.facts
                },
            }),
        }
    }
}
