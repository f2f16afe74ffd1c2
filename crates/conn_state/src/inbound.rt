ghost use Rattle.std.specs.Prelude.{◌≡◌, true, false};
ghost use Rattle.conn_state.specs.Moves.{acquired, awakened, idled};
ghost use Rattle.conn_state.specs.Protocols.{has_responder};
ghost use Rattle.conn_state.specs.State.{as_after_inbound};
ghost use Rattle.conn_state.specs.Use.{is_duplex, runs};

use crate::responders::{some_runs, with_responder};
use crate::{AfterInbound, Duplex, InboundIdle};
use net_base::{Facts, Grace};
use std::marker::Model;

/// In use by the other side alone.
#[derive(Drop)]
pub struct Inbound {
    pub(crate) facts: Facts,
}

impl Model for Inbound {
    ghost use Rattle.net_base.specs.declared.connection.Facts.{Facts};
    ghost use Rattle.conn_state.specs.Shapes.{IsInbound};

    ghost Value = { Facts };

    ghost view = { λ s. s.facts };

    ghost invariant = { λ s. IsInbound s.facts };
}

impl Inbound {
    /// The other side starts one more responder.
    pub fn awake(self, protocol: u16) -> Inbound
        requires known { has_responder protocol ≡ true }
        requires silent { runs protocol self.running ≡ false }
        ensures { result ≡ awakened protocol self }
    {
        Inbound {
            facts: Facts {
                running: with_responder(protocol, true, self.facts.running),
                ..self.facts
            },
        }
    }

    /// A responder stops. With the last one the connection is kept for the other side until a moment.
    pub fn idle(self, protocol: u16, until: u64) -> AfterInbound
        requires { runs protocol self.running ≡ true }
        ensures { result ≡ as_after_inbound (idled protocol until self) }
    {
        let running = with_responder(protocol, false, self.facts.running);
        if some_runs(running) {
            AfterInbound::Still(Inbound {
                facts: Facts {
                    running,
                    ..self.facts
                },
            })
        } else {
            AfterInbound::Quiet(InboundIdle {
                facts: Facts {
                    running,
                    grace: Grace::ForRemote(until),
                    ..self.facts
                },
            })
        }
    }

    /// This side takes the connection into use.
    pub fn acquire(self) -> Duplex
        requires { is_duplex self ≡ true }
        ensures { result ≡ acquired self }
    {
        Duplex {
            facts: Facts {
                local: true,
                ..self.facts
            },
        }
    }
}
