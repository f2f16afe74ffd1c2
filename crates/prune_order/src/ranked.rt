use net_base::Cid;

/// A connection, and its rank where it may go.
#[derive(Clone, Copy, PartialEq, Eq)]
pub struct Ranked {
    pub cid: Cid,
    pub rank: Option<u8>,
}
