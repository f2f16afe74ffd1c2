/// What is wanted of a run.
#[derive(Clone, Copy)]
pub struct Asked {
    pub seed: u64,
    /// The time between two reports, in milliseconds.
    pub every: u64,
    /// The trace of this node is written, in place of reports.
    pub traced: Option<usize>,
}

/// How a run ended.
#[derive(Clone, Copy)]
pub enum RunEnd {
    /// It was simulated to its end.
    Done,
    WriteFault,
    OutOfMemory,
    /// No engine stepped for the node whose trace was asked for: it is none, an attacker's, or never began.
    NoTrace,
}
