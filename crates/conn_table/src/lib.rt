//! The connections of a node: each is found by its id or its address, and the limits count them. A roster has them move
//! by steps; through a table the outbound side uses one by a lease alone.
#![tactic(auto)]

mod acquire;
mod grace_end;
mod lease;
mod placed;
mod recent;
mod roster;
mod step;
mod table;

pub use acquire::Acquire;
pub use grace_end::GraceEnd;
pub use lease::LocalLease;
pub use placed::{Placed, PlacedList};
pub use recent::Recent;
pub use roster::Roster;
pub use step::Step;
pub use table::ConnTable;
