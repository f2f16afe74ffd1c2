//! What is around a node: a world gives events and takes actions. One follows a script, and one is a made town of peers. Here are
//! also the queues that worlds have: of events, and of bytes to send.
#![tactic(auto)]

mod copy;
mod history;
pub mod law;
mod next;
mod opening;
mod out_queue;
mod refusal;
mod script_world;
mod town;
mod town_world;
mod waiting;
mod world;

pub use next::Next;
pub use opening::Opening;
pub use out_queue::OutQueue;
pub use refusal::WorldRefusal;
pub use script_world::ScriptWorld;
pub use town_world::TownWorld;
pub use waiting::Waiting;
pub use world::World;
