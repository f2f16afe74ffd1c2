/// Why an item does not end in the bytes that are there.
#[derive(Clone, Copy, PartialEq, Eq)]
pub(crate) enum Stop {
    /// The bytes end before the item does.
    More,
    /// No item begins like this.
    Bad,
    /// An array, a map or a tag begins inside as many as there may be.
    Deep,
}
