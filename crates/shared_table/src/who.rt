/// Which of the two governors makes a call.
#[derive(Clone, Copy, PartialEq, Eq)]
pub enum Who {
    /// The outbound governor.
    Out,
    /// The inbound governor.
    In,
}
