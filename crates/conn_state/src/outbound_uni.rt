ghost use Rattle.std.specs.Prelude.{◌≡◌};
ghost use Rattle.conn_state.specs.Moves.{released};

use crate::OutboundIdle;
use net_base::{Facts, Grace};
use std::marker::Model;

/// In use by this side, which alone may run protocols.
#[derive(Drop)]
pub struct OutboundUni {
    pub(crate) facts: Facts,
}

impl Model for OutboundUni {
    ghost use Rattle.net_base.specs.declared.connection.Facts.{Facts};
    ghost use Rattle.conn_state.specs.Shapes.{IsOutboundUni};

    ghost Value = { Facts };

    ghost view = { λ s. s.facts };

    ghost invariant = { λ s. IsOutboundUni s.facts };
}

impl OutboundUni {
    /// This side uses the connection no more. It is kept for this side until a moment.
    pub fn release(self, until: u64) -> OutboundIdle
        ensures { result ≡ released until self }
    {
        OutboundIdle {
            facts: Facts {
                local: false,
                grace: Grace::ForLocal(until),
                ..self.facts
            },
        }
    }
}
