/// Why no more items can be taken off a stream.
#[derive(Clone, Copy, PartialEq, Eq)]
pub enum CutFault {
    /// No item begins like this.
    Bad,
    /// Too many arrays, maps and tags stand inside each other.
    Deep,
    /// An item has more bytes than its protocol allows.
    TooLong,
    /// A segment has an unknown protocol number.
    UnknownId,
}
