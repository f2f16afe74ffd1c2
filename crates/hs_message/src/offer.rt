use crate::Info;
use net_base::Sequence;

/// A version with its info.
#[derive(Clone, Copy, PartialEq, Eq)]
pub struct Offer {
    pub version: u64,
    pub info: Info,
}

/// A table of versions, in the order in which they stand in the message.
pub type Table = Sequence<Offer>;
