//! What a node does on its sockets, without the sockets: it is told what happened on them, and asked what to do next.
#![tactic(auto)]

mod acting;
mod announcement;
mod ask;
mod asking;
mod door;
mod due_queue;
mod flow;
mod hearing;
mod id;
pub mod law;
mod limits;
mod moments;
mod roots;
mod socket;
mod socket_table;
mod terms;
mod turn_queue;

pub use ask::{Ask, Dialed};
pub use flow::SocketFlow;
pub use limits::READ_MOST;
pub use terms::Terms;
