/// What a node keeps to with its clients.
#[derive(Clone, Copy, PartialEq, Eq)]
pub struct ClientRules {
    /// The number of the network.
    pub magic: u32,
    /// How many clients there may be at once, 1 to 10,000.
    pub limit: u64,
    /// How many milliseconds a client may take for the handshake, 1 to 86,400,000.
    pub wait: u64,
}
