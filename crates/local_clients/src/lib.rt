//! The clients of a node on the same machine: who is let in, what is agreed on with them, and when they are closed. The
//! handshake follows the node-to-client handshake of the Ouroboros network specification in outline; the rest is this
//! project's own. What clients ask once they are open is passed over.
#![tactic(auto)]

mod action;
mod action_text;
mod client;
mod client_line;
mod clients;
mod context;
mod decision;
mod event;
mod hearing;
pub mod law;
mod phase;
mod protocol;
mod replay;
mod rules;
mod running;
mod stream;
mod table;

pub use action::{ClientAction, ClientActions, ClientCause};
pub use clients::Clients;
pub use event::ClientEvent;
pub use line_run::LineOutcome as ClientOutcome;
pub use rules::ClientRules;
pub use running::clients_run;
