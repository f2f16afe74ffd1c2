/// What one end says of itself beside a version. A local client says its magic and query alone: it runs no responder and
/// shares no peers, so that `initiator_only` stands and `sharing` does not.
#[derive(Clone, Copy, PartialEq, Eq)]
pub struct VersionInfo {
    /// The number of the network.
    pub magic: u32,
    /// The node runs no responder for those that it dials.
    pub initiator_only: bool,
    /// The node takes part in peer sharing.
    pub sharing: bool,
    /// The node only asks for the versions.
    pub query: bool,
}

/// What stands beside a version.
#[derive(Clone, Copy, PartialEq, Eq)]
pub enum Info {
    Known(VersionInfo),
    /// Any other item, or any item of another version.
    Foreign,
}
