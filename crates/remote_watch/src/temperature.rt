ghost use Rattle.std.specs.Prelude.{◌≡◌};
ghost use Rattle.remote_watch.specs.Temperature.{remote_temp_of};

use conn_state::facts::is_negotiated;
use conn_state::responders::{some_hot_runs, some_runs};
use net_base::Facts;

/// How far the other side uses a connection: this project's own rule.
#[derive(Clone, Copy, PartialEq, Eq)]
pub enum RemoteTemp {
    /// The handshake is not done, or the connection is closed.
    Cold,
    /// Nothing runs.
    Idle,
    /// Keep-alive or peer sharing runs, and nothing else.
    Warm,
    /// Chain-sync, block-fetch or tx-submission runs.
    Hot,
}

/// By the responders that run, and else by whether the handshake is done.
pub fn remote_temp(facts: &Facts) -> RemoteTemp
    ensures { result ≡ remote_temp_of facts.now }
{
    if some_hot_runs(facts.running) {
        RemoteTemp::Hot
    } else if some_runs(facts.running) {
        RemoteTemp::Warm
    } else if is_negotiated(facts) {
        RemoteTemp::Idle
    } else {
        RemoteTemp::Cold
    }
}
