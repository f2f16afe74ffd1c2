/// How many peers and connections there are. Established peers are warm or hot, and active peers are hot.
#[derive(Clone, Copy, PartialEq, Eq)]
pub struct Tally {
    /// Ordinary peers.
    pub known: u64,
    pub established: u64,
    pub active: u64,
    /// Connections that the limits count.
    pub counted: u64,
    /// Big ledger peers.
    pub big_known: u64,
    pub big_established: u64,
    pub big_active: u64,
}
