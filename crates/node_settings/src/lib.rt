//! What a node's settings file and topology file say, and the reading of both.
#![tactic(auto)]

mod config;
mod config_file;
mod config_refusal;
mod host;
mod members;
mod points;
mod roots;
mod topology;
mod topology_file;
mod topology_refusal;

pub use config::Config;
pub use config_file::read_config;
pub use config_refusal::ConfigRefusal;
pub use topology::Topology;
pub use topology_file::read_topology;
pub use topology_refusal::TopologyRefusal;
