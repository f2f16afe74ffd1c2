use crate::{Noted, Who};

/// The first call in a history that is not what its caller kept.
#[derive(Clone, Copy, PartialEq, Eq)]
pub struct Torn {
    pub who: Who,
    /// The number of that caller's calls in the history up to and with this one.
    pub place: u64,
    /// What the caller kept there.
    pub kept: Noted,
    /// What the history has there.
    pub found: Noted,
}
