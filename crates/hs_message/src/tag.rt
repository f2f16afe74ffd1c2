/// How the array begins that a message is, or a reason.
#[derive(Clone, Copy, PartialEq, Eq)]
pub(crate) struct Tag {
    /// How many elements the array has.
    pub(crate) elements: u64,
    /// The number that is the first of them.
    pub(crate) number: u64,
}
