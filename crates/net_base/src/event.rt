use crate::{Addr, AddrList, BigTargets, Cid, Octets, Sequence, Targets};

/// The number of a question to the root peer provider. Given from 1 on.
#[derive(Clone, Copy, PartialEq, Eq, PartialOrd, Ord)]
pub struct Job(pub u64);

/// Local root peers that are kept at valencies of their own.
#[derive(PartialEq, Drop)]
pub struct Group {
    /// How many members are to be hot.
    pub hot: u64,
    /// How many members are to be warm or hot.
    pub warm: u64,
    /// The members are told to peers that ask for addresses.
    pub advertise: bool,
    pub members: AddrList,
}

/// Groups one after another, in file order.
pub type GroupList = Sequence<Group>;

/// What the root peer provider answers.
#[derive(PartialEq, Drop)]
pub enum RootAnswer {
    /// Milliseconds for which the answer serves, and the addresses.
    Found(u64, AddrList),
    Failed,
}

/// What happens to a node.
#[derive(PartialEq, Drop)]
pub enum Event {
    /// The clock shows a moment, in milliseconds.
    Now(u64),
    /// The governor is to look at its targets. The word decides between peers that are as good.
    Govern(u64),
    /// A peer has connected.
    Accepted(Addr),
    /// A dial of this node's ended, and whether the socket is open.
    Dialed(Cid, bool),
    /// Bytes came in.
    Bytes(Cid, Octets),
    /// The other side closed, or the socket failed.
    Closed(Cid),
    /// The targets are set.
    Aims(Targets),
    /// The local root peers are set.
    Locals(GroupList),
    /// A question for public root peers is answered.
    Roots(Job, RootAnswer),
    /// The targets of big ledger peers are set.
    BigAims(BigTargets),
    /// Big ledger peers are made known.
    Bigs(AddrList),
}

/// Events one after another.
pub type EventList = Sequence<Event>;
