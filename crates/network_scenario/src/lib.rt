//! What is to be simulated: a network of nodes, as a scenario file says it.
#![tactic(auto)]

mod kind;
mod kind_table;
mod mishap;
mod mishap_tables;
mod reading;
mod refusal;
mod scenario;
mod values;

pub use kind::{Friends, Kind, Role};
pub use mishap::{Apart, Leaving, Parting};
pub use reading::read_scenario;
pub use refusal::{Due, ScenarioRefusal};
pub use scenario::{Links, Provider, Scenario, Words};
