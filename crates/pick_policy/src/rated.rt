use net_base::Addr;

/// A candidate, and how often it failed.
#[derive(Clone, Copy, PartialEq, Eq)]
pub struct Rated {
    pub addr: Addr,
    pub failures: u64,
}
