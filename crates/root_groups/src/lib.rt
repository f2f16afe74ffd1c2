//! Local root peers in their groups, and the ask for public root peers.
#![tactic(auto)]

mod groups;
mod laws;
mod places;
mod publics;
mod roots;

pub use groups::Groups;
pub use laws::each_address_stays_in_its_first_group;
pub use roots::Roots;
