//! The words that every other crate shares: numbers, addresses, settings, the parts of a connection and of
//! a peer, events, actions, and the lists of them.
#![tactic(auto)]

mod action;
mod address;
mod call_log;
mod connection;
mod event;
mod limits;
mod list;
mod memory;
mod number;
mod peer;
pub mod protocol;
mod refusal;
mod settings;
mod targets;
mod timer;

pub use action::{Action, ActionList, Away, CloseCause, FaultKind, PeerNote, StateName};
pub use address::{Addr, AddrList, Ip};
pub use call_log::CallLog;
pub use connection::{Agreed, Cid, Facts, Grace, Phase, Provenance, Responders};
pub use event::{Event, EventList, Group, GroupList, Job, RootAnswer};
pub use limits::{INTERVAL_MOST, NUMBER_MOST};
pub use list::{NumberList, Octets, Sequence};
pub use memory::OutOfMemory;
pub use number::read_number;
pub use peer::{Peer, Temp, backoff_delay};
pub use refusal::RefusalKind;
pub use settings::{Field, Settings};
pub use targets::{BigTargets, Targets};
pub use timer::{Deadline, Kind};
