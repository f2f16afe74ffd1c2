use net_base::Agreed;

/// What a message of the handshake comes to.
#[derive(Clone, Copy, PartialEq, Eq)]
pub enum Verdict {
    /// An acceptor takes the proposal.
    Accept(Agreed),
    /// An acceptor refuses it.
    Refuse(Why),
    /// An acceptor tells its versions to a dialer that only asks.
    Query,
    /// A dialer has agreed.
    Agree(Agreed),
    /// A dialer was refused, or cannot agree.
    Refused,
    /// The message is none that this side may get.
    Wrong,
}

/// Why an acceptor refuses.
#[derive(Clone, Copy, PartialEq, Eq)]
pub enum Why {
    /// The proposal has no version that this node takes.
    NoCommon,
    /// What stands beside this version, the greatest common one, is not understood.
    NotDecoded(u64),
    /// This version's proposal is of another network.
    Magic(u64),
}
