/// The network falls apart in two for a time. Times are milliseconds, and shares are of a thousand.
#[derive(Clone, Copy)]
pub struct Parting {
    pub from: u64,
    pub to: u64,
    /// Who is in the one part.
    pub apart: Apart,
    /// After which time a socket across is found dead.
    pub notice: u64,
}

/// Who is in one of two parts.
#[derive(Clone, Copy)]
pub enum Apart {
    /// Every node of the kind at this place.
    Kind(usize),
    /// So many of a thousand nodes.
    Share(u64),
}

/// Nodes leave at once.
#[derive(Clone, Copy)]
pub struct Leaving {
    pub at: u64,
    pub share: u64,
    /// When they come back, if they do.
    pub back: Option<u64>,
}
