/// A call on a source or a sink failed, and moved nothing.
#[derive(Clone, Copy, PartialEq, Eq)]
pub struct Failed;
