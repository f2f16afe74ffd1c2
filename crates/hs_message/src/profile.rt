/// Whose handshake it is: which versions there are, and what is said beside them.
#[derive(Clone, Copy, PartialEq, Eq)]
pub enum Profile {
    /// Between two nodes: the versions 13 and 14.
    NodeToNode,
    /// Between a node and a client on the same machine: the versions 32784 and 32785.
    NodeToClient,
}
