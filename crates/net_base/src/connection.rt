use crate::Addr;

/// The id of a connection. Ids are given from 1 on.
#[derive(Clone, Copy, PartialEq, Eq, PartialOrd, Ord)]
pub struct Cid(pub u64);

/// Who dialed.
#[derive(Clone, Copy, PartialEq, Eq)]
pub enum Provenance {
    FromRemote,
    FromLocal,
}

/// How far a connection has come.
#[derive(Clone, Copy, PartialEq, Eq)]
pub enum Phase {
    /// The socket is not open yet.
    Dialing,
    /// The handshake is under way, until a moment.
    Greeting(u64),
    Negotiated,
    /// Closed by this side and kept for the time-wait, until a moment.
    Closing(u64),
}

/// What two ends agreed on in the handshake.
#[derive(Clone, Copy, PartialEq, Eq)]
pub struct Agreed {
    pub version: u64,
    /// Protocols run from the dialer's side alone. Where this is false the connection is duplex.
    pub initiator_only: bool,
    /// Both ends take part in peer sharing.
    pub sharing: bool,
}

/// For whom an unused connection is kept, and until which moment.
#[derive(Clone, Copy, PartialEq, Eq)]
pub enum Grace {
    Off,
    ForRemote(u64),
    ForLocal(u64),
}

/// The responders that run on a connection, one for each mini-protocol.
#[derive(Clone, Copy, PartialEq, Eq)]
pub struct Responders {
    /// Protocol 2.
    pub chain_sync: bool,
    /// Protocol 3.
    pub block_fetch: bool,
    /// Protocol 4.
    pub tx_submission: bool,
    /// Protocol 8.
    pub keep_alive: bool,
    /// Protocol 10.
    pub peer_sharing: bool,
}

/// What is known of one connection.
#[derive(Clone, Copy, PartialEq, Eq)]
pub struct Facts {
    pub addr: Addr,
    pub cid: Cid,
    pub provenance: Provenance,
    pub phase: Phase,
    /// None outside `Negotiated`.
    pub agreed: Option<Agreed>,
    /// The outbound governor uses the connection.
    pub local: bool,
    pub running: Responders,
    pub grace: Grace,
}
