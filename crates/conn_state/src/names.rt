//! The name of a connection's state.

ghost use Rattle.std.specs.Prelude.{◌≡◌};
ghost use Rattle.conn_state.specs.Names.{name_in_use, name_of, name_while_greeting, name_while_idle, name_while_ticking};

use crate::facts::is_duplex;
use crate::responders::some_runs;
use net_base::{Facts, Grace, Phase, Provenance, StateName};

/// The name of a connection's state, as in the Ouroboros network specification's connection manager.
pub fn name_of(facts: &Facts) -> StateName
    ensures { result ≡ name_of facts.now }
{
    match facts.phase {
        Phase::Dialing => StateName::ReservedOutbound,
        Phase::Greeting(_) => name_while_greeting(facts.provenance),
        Phase::Negotiated => name_in_use(
            facts.local,
            some_runs(facts.running),
            is_duplex(facts),
            facts.grace,
        ),
        Phase::Closing(_) => StateName::Terminating,
    }
}

fn name_while_greeting(provenance: Provenance) -> StateName
    ensures { result ≡ name_while_greeting provenance }
{
    match provenance {
        Provenance::FromRemote => StateName::UnnegotiatedInbound,
        Provenance::FromLocal => StateName::UnnegotiatedOutbound,
    }
}

fn name_in_use(local: bool, remote: bool, duplex: bool, grace: Grace) -> StateName
    ensures { result ≡ name_in_use local remote duplex grace }
{
    match (local, remote, duplex) {
        (true, true, _) => StateName::Duplex,
        (true, false, true) => name_while_ticking(grace),
        (true, false, false) => StateName::OutboundUni,
        (false, true, _) => StateName::Inbound,
        (false, false, _) => name_while_idle(grace),
    }
}

fn name_while_ticking(grace: Grace) -> StateName
    ensures { result ≡ name_while_ticking grace }
{
    match grace {
        Grace::ForRemote(_) => StateName::OutboundDupTicking,
        Grace::Off | Grace::ForLocal(_) => StateName::OutboundDupExpired,
    }
}

fn name_while_idle(grace: Grace) -> StateName
    ensures { result ≡ name_while_idle grace }
{
    match grace {
        Grace::ForRemote(_) => StateName::InboundIdle,
        Grace::Off | Grace::ForLocal(_) => StateName::OutboundIdle,
    }
}
