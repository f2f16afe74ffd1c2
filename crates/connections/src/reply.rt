/// A reply that the other side owes.
#[derive(Clone, Copy, PartialEq, Eq)]
pub struct Reply {
    /// When it has to be there.
    pub until: u64,
    /// The cookie that was sent on keep-alive, how many addresses were asked for on peer-sharing, else 0.
    pub asked: u64,
}
