/// What became of an address that was to come into the book.
#[derive(Clone, Copy, PartialEq, Eq)]
pub enum Added {
    /// It came in.
    New,
    /// It was there already.
    Present,
    /// As many peers stand as there may be.
    Full,
}
