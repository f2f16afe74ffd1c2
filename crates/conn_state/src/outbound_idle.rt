ghost use Rattle.std.specs.Prelude.{◌≡◌, true};
ghost use Rattle.conn_state.specs.Moves.{awakened, closing};
ghost use Rattle.conn_state.specs.Protocols.{has_responder};
ghost use Rattle.conn_state.specs.Use.{is_duplex};

use crate::responders::with_responder;
use crate::{Inbound, Terminating};
use net_base::{Facts, Grace};
use std::marker::Model;

/// In no use, and kept for this side.
#[derive(Drop)]
pub struct OutboundIdle {
    pub(crate) facts: Facts,
}

impl Model for OutboundIdle {
    ghost use Rattle.net_base.specs.declared.connection.Facts.{Facts};
    ghost use Rattle.conn_state.specs.Shapes.{IsOutboundIdle};

    ghost Value = { Facts };

    ghost view = { λ s. s.facts };

    ghost invariant = { λ s. IsOutboundIdle s.facts };
}

impl OutboundIdle {
    /// The other side starts a responder.
    pub fn awake(self, protocol: u16) -> Inbound
        requires known { has_responder protocol ≡ true }
        requires duplex { is_duplex self ≡ true }
        ensures { result ≡ awakened protocol self }
    {
        Inbound {
            facts: Facts {
                running: with_responder(protocol, true, self.facts.running),
                grace: Grace::Off,
                ..self.facts
            },
        }
    }

    /// Nobody took the connection into use: this side closes it, and keeps it until a moment.
    pub fn grace_over(self, until: u64) -> Terminating
        ensures { result ≡ closing until self }
    {
        Terminating::closed(self.facts, until)
    }
}
