use crate::{Info, Table};
use net_base::{NumberList, Octets};

/// A message of the handshake.
#[derive(PartialEq, Drop)]
pub enum Message {
    /// The versions that the dialer takes.
    Propose(Table),
    /// The version that the acceptor chose, and what both ends come to.
    Accept(u64, Info),
    Refuse(Reason),
    /// The versions that the acceptor takes, for a dialer that only asked.
    QueryReply(Table),
}

/// Why a proposal is refused.
#[derive(PartialEq, Drop)]
pub enum Reason {
    /// The acceptor takes these versions, and the proposal has none of them.
    NoCommon(NumberList),
    /// The info beside this version is not understood. The text says so for people.
    NotDecoded(u64, Octets),
    /// This version was refused for what its info says. The text says why for people.
    Declined(u64, Octets),
}
