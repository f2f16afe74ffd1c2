use net_base::{FaultKind, Octets, Sequence};

/// Why a client is closed.
#[derive(Clone, Copy, PartialEq, Eq)]
pub enum ClientCause {
    /// Its proposal was refused.
    Refused,
    /// It only asked for the versions.
    Query,
    Fault(FaultKind),
}

/// What is done with a client, which is named by its id.
#[derive(PartialEq, Drop)]
pub enum ClientAction {
    Admit(u64),
    Turnaway,
    Send(u64, Octets),
    /// The handshake ended with this version.
    Open(u64, u64),
    Close(u64, ClientCause),
}

/// Actions one after another.
pub type ClientActions = Sequence<ClientAction>;
