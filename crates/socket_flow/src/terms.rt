use net_base::Addr;

/// What the settings say of sockets. Times are milliseconds.
#[derive(Clone, Copy)]
pub struct Terms {
    /// The node's own address.
    pub own: Addr,
    /// A dialer tells its address before its first segment.
    pub announce: bool,
    /// Above how many counted connections accepting pauses.
    pub soft: u64,
    /// How long a dial and an announcement may take.
    pub handshake: u64,
    /// How long a peer may take none of the bytes that wait for it.
    pub reply: u64,
    /// The time between two rounds of the governor.
    pub tick: u64,
    /// For how long an answer with root peers serves.
    pub rootttl: u64,
}
