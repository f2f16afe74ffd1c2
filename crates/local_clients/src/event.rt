use net_base::Octets;

/// What happens to the clients.
#[derive(PartialEq, Drop)]
pub enum ClientEvent {
    /// The clock shows this moment, in milliseconds.
    Now(u64),
    /// One more client connects.
    Joined,
    /// Bytes come from the client with this id.
    Bytes(u64, Octets),
    /// The client with this id is gone.
    Gone(u64),
}
