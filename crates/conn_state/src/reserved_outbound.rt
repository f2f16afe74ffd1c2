ghost use Rattle.std.specs.Prelude.{◌≡◌};
ghost use Rattle.conn_state.specs.Moves.{dialing, connected};

use crate::Unnegotiated;
use crate::responders::none_running;
use net_base::{Addr, Cid, Facts, Grace, Phase, Provenance};
use std::marker::Model;

/// This node dials, and the socket is not open yet.
#[derive(Drop)]
pub struct ReservedOutbound {
    pub(crate) facts: Facts,
}

impl Model for ReservedOutbound {
    ghost use Rattle.net_base.specs.declared.connection.Facts.{Facts};
    ghost use Rattle.conn_state.specs.Shapes.{IsReservedOutbound};

    ghost Value = { Facts };

    ghost view = { λ s. s.facts };

    ghost invariant = { λ s. IsReservedOutbound s.facts };
}

impl ReservedOutbound {
    /// Dials an address under an id.
    pub fn new(cid: Cid, addr: Addr) -> ReservedOutbound
        ensures { result ≡ dialing cid.0 addr }
    {
        ReservedOutbound {
            facts: Facts {
                cid,
                addr,
                provenance: Provenance::FromLocal,
                phase: Phase::Dialing,
                agreed: None,
                local: false,
                running: none_running(),
                grace: Grace::Off,
            },
        }
    }

    /// The socket is open, and the handshake may take until a moment.
    pub fn connected(self, until: u64) -> Unnegotiated
        ensures { result ≡ connected until self }
    {
        Unnegotiated {
            facts: Facts {
                phase: Phase::Greeting(until),
                ..self.facts
            },
        }
    }
}
