use crate::End;

/// What happens to a pair.
#[derive(Clone, Copy, PartialEq, Eq)]
pub enum PairStep {
    /// An end dials the other one. Only where both are fresh.
    Meet(End),
    /// Both ends dial at once. Only where both are fresh.
    Cross,
    /// So many bytes come out of the pipe towards an end, or all where fewer stand in it.
    Deliver(End, u64),
    /// An end has waited too long. Only where it waits.
    Timeout(End),
    /// An end is closed. Only where it has not ended.
    Close(End),
}
