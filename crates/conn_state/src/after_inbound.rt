use crate::{Inbound, InboundIdle};

/// What a connection that the other side alone used is after one of its responders has stopped.
#[derive(Drop)]
pub enum AfterInbound {
    /// Another one runs.
    Still(Inbound),
    /// It was the last one.
    Quiet(InboundIdle),
}
