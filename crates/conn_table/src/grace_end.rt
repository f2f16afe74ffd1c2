/// What becomes of a connection whose grace is over.
#[derive(Clone, Copy, PartialEq, Eq)]
pub enum GraceEnd {
    /// It is in local use, and goes on.
    Expired,
    /// Nobody used it: this side closes it.
    Closing,
}
