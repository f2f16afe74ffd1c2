/// A number of a node that is reported.
#[derive(Clone, Copy)]
pub(crate) enum Measure {
    /// Of a node that is up, its peers that are known, established and active.
    Known,
    Established,
    Active,
    /// Of a node that is up, its connections that the limits count.
    Counted,
    /// After how many milliseconds it had as many peers as wanted.
    ReachedKnown,
    ReachedEstablished,
    ReachedActive,
}
