//! The states of a connection, each a type of its own, and the moves between them. A move that a state lacks does not
//! compile. What a connection is called and what each move makes of its facts is defined in `specs/`.
#![tactic(auto)]

mod after_duplex;
mod after_inbound;
mod duplex;
pub mod facts;
mod inbound;
mod inbound_idle;
pub mod names;
mod outbound_dup;
mod outbound_idle;
mod outbound_uni;
mod released;
mod reserved_outbound;
pub mod responders;
mod state;
mod terminating;
mod unnegotiated;

pub use after_duplex::AfterDuplex;
pub use after_inbound::AfterInbound;
pub use duplex::Duplex;
pub use inbound::Inbound;
pub use inbound_idle::InboundIdle;
pub use net_base::{Agreed, Cid, Facts, Grace, Phase, Provenance, Responders};
pub use outbound_dup::OutboundDup;
pub use outbound_idle::OutboundIdle;
pub use outbound_uni::OutboundUni;
pub use released::Released;
pub use reserved_outbound::ReservedOutbound;
pub use state::ConnState;
pub use terminating::Terminating;
pub use unnegotiated::Unnegotiated;
