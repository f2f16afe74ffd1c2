use net_base::{Addr, Event};

/// What is to be done next.
#[derive(Drop)]
pub enum Ask {
    /// Close the socket of this key, if there is one.
    Close(usize),
    /// Begin to connect a socket, which has this key, to this address.
    Connect { key: usize, addr: Addr },
    /// See what has become of the socket that connects.
    Check(usize),
    /// Write what waits on this socket.
    Write(usize),
    /// Accept a peer.
    Accept,
    /// Read at most so many bytes of this socket.
    Read { key: usize, most: usize },
    /// Give this event to the node.
    Give(Event),
    /// Give the node a round of its governor.
    Govern,
    /// Wait for the sockets, at most so many milliseconds.
    Wait(u64),
}

/// What has become of a socket that connects.
#[derive(Clone, Copy, PartialEq, Eq)]
pub enum Dialed {
    NotYet,
    Connected,
    Failed,
}
