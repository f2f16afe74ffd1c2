use mux_segment::Waiting;
use net_base::Octets;

/// A client that may shake hands until a moment.
#[derive(Drop)]
pub(crate) struct GreetingClient {
    pub until: u64,
    /// The bytes that are no whole segment yet.
    pub rest: Octets,
    /// The bytes of the handshake that are no whole item yet.
    pub part: Waiting,
}

/// A client that agreed on a version.
#[derive(Drop)]
pub(crate) struct OpenClient {
    pub version: u64,
    /// The bytes that are no whole segment yet.
    pub rest: Octets,
}
