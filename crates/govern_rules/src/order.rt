use net_base::{Addr, Sequence};

/// What a rule has the node do with a peer.
#[derive(Clone, Copy, PartialEq, Eq)]
pub enum Order {
    /// Ask it for so many addresses.
    Ask(Addr, u64),
    Forget(Addr),
    /// Dial it, or take a connection with it into use.
    Promote(Addr),
    Release(Addr),
    /// Have a warm peer become hot.
    Activate(Addr),
    /// Have a hot peer become warm.
    Deactivate(Addr),
}

/// Orders one after another.
pub type OrderList = Sequence<Order>;
