use crate::{Addr, Cid, Job, Octets, Sequence};

/// The name of a connection's state, as in the Ouroboros network specification's connection manager.
#[derive(Clone, Copy, PartialEq, Eq)]
pub enum StateName {
    ReservedOutbound,
    UnnegotiatedInbound,
    UnnegotiatedOutbound,
    Duplex,
    OutboundUni,
    OutboundDupTicking,
    OutboundDupExpired,
    Inbound,
    InboundIdle,
    OutboundIdle,
    Terminating,
    Terminated,
}

/// What a peer did wrong.
#[derive(Clone, Copy, PartialEq, Eq)]
pub enum FaultKind {
    Malformed,
    Deep,
    TooLong,
    Protocol,
    UnknownId,
    HandshakeWait,
    ReplyWait,
}

/// Why this node closes a connection.
#[derive(Clone, Copy, PartialEq, Eq)]
pub enum CloseCause {
    /// Its grace is over and nobody uses it.
    Unused,
    /// The hard limit was passed.
    Pruned,
    /// The other side's dial of the same pair is kept in its place.
    Overwritten,
    /// The handshake was refused.
    Refused,
    /// The other side only asked for the versions.
    Query,
    Fault(FaultKind),
}

/// Why a connecting peer is turned away.
#[derive(Clone, Copy, PartialEq, Eq)]
pub enum Away {
    Full,
    OwnAddr,
    Crossed,
    Present,
}

/// What is told of a peer.
#[derive(Clone, Copy, PartialEq, Eq)]
pub enum PeerNote {
    Known,
    Cold,
    Warm,
    Hot,
    Forgotten,
}

/// What a node does, and what it tells.
#[derive(PartialEq, Drop)]
pub enum Action {
    Admit(Cid, Addr),
    Turnaway(Away),
    Dial(Cid, Addr),
    Send(Cid, Octets),
    Close(Cid, CloseCause),
    /// Accept nobody for so many milliseconds.
    Pause(u64),
    AskRoots(Job),
    State(Cid, StateName),
    Peer(Addr, PeerNote),
}

/// Actions one after another.
pub type ActionList = Sequence<Action>;
