/// Why a line is refused. A place is that of a word in its line, from 1.
#[derive(Clone, Copy, PartialEq, Eq)]
pub enum RefusalKind {
    /// A word that is wrong, missing or too many.
    Word(u64),
    /// A number that is no decimal or out of its range.
    Number(u64),
    /// Targets that break a bound.
    Targets,
    /// A setting that stands before one that it should follow, or after an event.
    Order,
    /// The input ended before its `end` line.
    NoEnd,
}
