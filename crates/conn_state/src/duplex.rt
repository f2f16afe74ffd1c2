ghost use Rattle.std.specs.Prelude.{◌≡◌, ℕ, true, false};
ghost use Rattle.conn_state.specs.Moves.{awakened, idled, released};
ghost use Rattle.conn_state.specs.Protocols.{has_responder};
ghost use Rattle.conn_state.specs.State.{as_after_duplex};
ghost use Rattle.conn_state.specs.Use.{runs};

use crate::responders::{some_runs, with_responder};
use crate::{AfterDuplex, Inbound, OutboundDup};
use net_base::{Facts, Grace};
use std::marker::Model;

/// In use by both sides.
#[derive(Drop)]
pub struct Duplex {
    pub(crate) facts: Facts,
}

impl Model for Duplex {
    ghost use Rattle.net_base.specs.declared.connection.Facts.{Facts};
    ghost use Rattle.conn_state.specs.Shapes.{IsDuplex};

    ghost Value = { Facts };

    ghost view = { λ s. s.facts };

    ghost invariant = { λ s. IsDuplex s.facts };
}

impl Duplex {
    /// The other side starts one more responder.
    pub fn awake(self, protocol: u16) -> Duplex
        requires known { has_responder protocol ≡ true }
        requires silent { runs protocol self.running ≡ false }
        ensures { result ≡ awakened protocol self }
    {
        Duplex {
            facts: Facts {
                running: with_responder(protocol, true, self.facts.running),
                ..self.facts
            },
        }
    }

    /// A responder stops. With the last one the other side has time to begin again until a moment.
    pub fn idle(self, protocol: u16, until: u64) -> AfterDuplex
        requires { runs protocol self.running ≡ true }
        ensures { result ≡ as_after_duplex (idled protocol until self) }
    {
        let running = with_responder(protocol, false, self.facts.running);
        if some_runs(running) {
            AfterDuplex::Still(Duplex {
                facts: Facts {
                    running,
                    ..self.facts
                },
            })
        } else {
            AfterDuplex::Quiet(OutboundDup {
                facts: Facts {
                    running,
                    grace: Grace::ForRemote(until),
                    ..self.facts
                },
            })
        }
    }

    /// This side uses the connection no more. The other side does, so no moment matters.
    pub fn release(self) -> Inbound
        ensures { (until : ℕ) → result ≡ released until self }
    {
        Inbound {
            facts: Facts {
                local: false,
                ..self.facts
            },
        }
    }
}
