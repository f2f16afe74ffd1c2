//! Questions to what is known of a connection.

ghost use Rattle.std.specs.Prelude.{◌≡◌, ◌&&◌, not};
ghost use Rattle.conn_state.specs.Counted.{is_counted};
ghost use Rattle.conn_state.specs.Shapes.{serves_remote};
ghost use Rattle.conn_state.specs.Use.{agreed_sharing, is_acquirable, is_dialing, is_duplex, is_for_remote, is_greeting, is_live, is_negotiated, is_outbound, is_pending};

use crate::responders::some_runs;
use net_base::{Facts, Grace, Phase, Provenance};

/// Whether this side dialed.
pub fn is_outbound(facts: &Facts) -> bool
    ensures { result ≡ is_outbound facts.now }
{
    matches!(facts.provenance, Provenance::FromLocal)
}

/// Whether both sides may run protocols.
pub fn is_duplex(facts: &Facts) -> bool
    ensures { result ≡ is_duplex facts.now }
{
    match facts.agreed {
        Some(agreed) => !agreed.initiator_only,
        None => false,
    }
}

/// Whether the other side may run protocols.
pub fn serves_remote(facts: &Facts) -> bool
    ensures { result ≡ serves_remote facts.now }
{
    !is_outbound(facts) || is_duplex(facts)
}

/// Whether peer sharing was agreed on.
pub fn is_sharing(facts: &Facts) -> bool
    ensures { result ≡ agreed_sharing facts.now.agreed }
{
    match facts.agreed {
        Some(agreed) => agreed.sharing,
        None => false,
    }
}

/// Whether the socket is not open yet.
pub fn is_dialing(facts: &Facts) -> bool
    ensures { result ≡ is_dialing facts.now }
{
    matches!(facts.phase, Phase::Dialing)
}

/// Whether the handshake is under way.
pub fn is_greeting(facts: &Facts) -> bool
    ensures { result ≡ is_greeting facts.now }
{
    matches!(facts.phase, Phase::Greeting(_))
}

/// Whether the handshake is over, and this side has not closed the connection.
pub fn is_negotiated(facts: &Facts) -> bool
    ensures { result ≡ is_negotiated facts.now }
{
    matches!(facts.phase, Phase::Negotiated)
}

/// Whether this side has not closed the connection.
pub fn is_live(facts: &Facts) -> bool
    ensures { result ≡ is_live facts.now }
{
    !matches!(facts.phase, Phase::Closing(_))
}

/// Whether this side dialed, and the handshake is not over.
pub fn is_pending(facts: &Facts) -> bool
    ensures { result ≡ is_pending facts.now }
{
    is_outbound(facts) && (is_dialing(facts) || is_greeting(facts))
}

/// Whether this side may take the connection into use.
pub fn is_acquirable(facts: &Facts) -> bool
    ensures { result ≡ is_acquirable facts.now }
{
    is_negotiated(facts)
        && is_duplex(facts)
        && !facts.local
        && !matches!(facts.grace, Grace::ForLocal(_))
}

/// Whether the limits count the connection.
pub fn is_counted(facts: &Facts) -> bool
    ensures { result ≡ is_counted facts.now }
{
    match facts.phase {
        Phase::Dialing | Phase::Closing(_) => false,
        Phase::Greeting(_) => !is_outbound(facts),
        Phase::Negotiated => some_runs(facts.running) || is_kept_for_remote(facts),
    }
}

// Whether a negotiated connection is kept for the other side, and not in use by this one.
fn is_kept_for_remote(facts: &Facts) -> bool
    ensures { result ≡ (not facts.now.local && is_for_remote facts.now.grace) }
{
    !facts.local && matches!(facts.grace, Grace::ForRemote(_))
}
