use crate::{InboundIdle, OutboundIdle};

/// What a connection is after this side has released it and nobody else uses it.
#[derive(Drop)]
pub enum Released {
    /// It was kept for the other side, and is still.
    ToInboundIdle(InboundIdle),
    /// It is kept for this side.
    ToOutboundIdle(OutboundIdle),
}
