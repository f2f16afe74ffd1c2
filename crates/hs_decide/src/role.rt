/// The side of the handshake that a node is on.
#[derive(Clone, Copy, PartialEq, Eq)]
pub enum Role {
    /// The node was dialed.
    Acceptor,
    /// The node has dialed.
    Dialer,
}
