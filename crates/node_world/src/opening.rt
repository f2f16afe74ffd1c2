use net_base::AddrList;
use node_settings::Config;

/// What a world is opened with.
#[derive(PartialEq, Drop)]
pub struct Opening {
    pub config: Config,
    /// The public root peers.
    pub publics: AddrList,
}
