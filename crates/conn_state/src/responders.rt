//! Questions to the responders that run on a connection.

ghost use Rattle.std.specs.Prelude.{◌≡◌, Bool};
ghost use Rattle.conn_state.specs.Use.{none_running, runs, some_hot_runs, some_runs, with_responder};

use net_base::{Responders, protocol};

/// Whether some responder runs.
pub fn some_runs(running: Responders) -> bool
    ensures { result ≡ some_runs running }
{
    some_hot_runs(running) || running.keep_alive || running.peer_sharing
}

/// Whether chain-sync, block-fetch or tx-submission runs.
pub fn some_hot_runs(running: Responders) -> bool
    ensures { result ≡ some_hot_runs running }
{
    running.chain_sync || running.block_fetch || running.tx_submission
}

/// Whether the responder of a protocol runs.
pub fn runs(protocol: u16, running: Responders) -> bool
    ensures { result ≡ runs protocol running }
{
    match protocol {
        protocol::CHAIN_SYNC => running.chain_sync,
        protocol::BLOCK_FETCH => running.block_fetch,
        protocol::TX_SUBMISSION => running.tx_submission,
        protocol::KEEP_ALIVE => running.keep_alive,
        protocol::PEER_SHARING => running.peer_sharing,
        _ => false,
    }
}

// No responder runs.
pub(crate) fn none_running() -> Responders
    ensures { result ≡ none_running }
{
    Responders {
        chain_sync: false,
        block_fetch: false,
        tx_submission: false,
        keep_alive: false,
        peer_sharing: false,
    }
}

// The responders after that of a protocol has started or stopped.
pub(crate) fn with_responder(protocol: u16, runs_now: bool, running: Responders) -> Responders
    ensures { result ≡ with_responder protocol runs_now running }
{
    match protocol {
        protocol::CHAIN_SYNC => Responders {
            chain_sync: runs_now,
            ..running
        },
        protocol::BLOCK_FETCH => Responders {
            block_fetch: runs_now,
            ..running
        },
        protocol::TX_SUBMISSION => Responders {
            tx_submission: runs_now,
            ..running
        },
        protocol::KEEP_ALIVE => Responders {
            keep_alive: runs_now,
            ..running
        },
        protocol::PEER_SHARING => Responders {
            peer_sharing: runs_now,
            ..running
        },
        _ => running,
    }
}
