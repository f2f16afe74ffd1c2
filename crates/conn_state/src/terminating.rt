ghost use Rattle.std.specs.Prelude.{◌≡◌};
ghost use Rattle.conn_state.specs.Moves.{closing};

use crate::responders::none_running;
use net_base::{Facts, Grace, Phase};
use std::marker::Model;

/// Closed by this side, and kept for the time-wait. No move leads on.
#[derive(Drop)]
pub struct Terminating {
    pub(crate) facts: Facts,
}

impl Model for Terminating {
    ghost use Rattle.net_base.specs.declared.connection.Facts.{Facts};
    ghost use Rattle.conn_state.specs.Shapes.{IsTerminating};

    ghost Value = { Facts };

    ghost view = { λ s. s.facts };

    ghost invariant = { λ s. IsTerminating s.facts };
}

impl Terminating {
    // What is left of a connection that this side closes, and keeps until a moment.
    pub(crate) fn closed(facts: Facts, until: u64) -> Terminating
        ensures { result ≡ closing until facts }
    {
        Terminating {
            facts: Facts {
                phase: Phase::Closing(until),
                agreed: None,
                local: false,
                running: none_running(),
                grace: Grace::Off,
                ..facts
            },
        }
    }
}
