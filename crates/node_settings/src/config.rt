use net_base::{Settings, Targets};

/// What the settings file says. Times are milliseconds.
#[derive(Clone, Copy, PartialEq, Eq)]
pub struct Config {
    pub settings: Settings,
    pub targets: Targets,
    /// For how long an answer with root peers serves.
    pub rootttl: u64,
    /// The time between two looks of the governor.
    pub tick: u64,
    /// What random words are made of.
    pub seed: u64,
    /// A dialer tells its address before its first segment.
    pub announce: bool,
}
