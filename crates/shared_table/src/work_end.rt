/// How a worker ended. Calls are numbered from 1.
#[derive(Clone, Copy, PartialEq, Eq)]
pub enum WorkEnd {
    /// All calls were made.
    All,
    /// The gate said no to this call as often as the worker asks.
    Held { index: u64 },
    /// Memory was refused at this call.
    OutOfMemory { index: u64 },
}
