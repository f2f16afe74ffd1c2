//! What the other side may ask, what it is answered, and how far it uses a connection.
#![tactic(auto)]

pub mod law;
mod refusal;
mod reply;
mod seen;
mod temperature;
mod watching;

pub use refusal::WatchRefusal;
pub use reply::{Reply, reply_bytes};
pub use seen::Seen;
pub use temperature::{RemoteTemp, remote_temp};
pub use watching::watch;
