use crate::{Duplex, OutboundDup};

/// What a connection that both sides used is after one of its responders has stopped.
#[derive(Drop)]
pub enum AfterDuplex {
    /// Another one runs.
    Still(Duplex),
    /// It was the last one.
    Quiet(OutboundDup),
}
