use mux_segment::Waiting;

/// How far a client has come.
#[derive(Drop)]
pub(crate) enum Phase {
    /// It may shake hands until this moment, and so much of its message is there.
    Greeting(u64, Waiting),
    /// It agreed on this version.
    Open(u64),
}
