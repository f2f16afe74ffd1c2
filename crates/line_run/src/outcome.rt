use net_base::RefusalKind;

/// How a run over lines ended. Lines are numbered from 1.
#[derive(Clone, Copy, PartialEq, Eq)]
pub enum LineOutcome {
    /// The input was read to its last line.
    Done,
    /// The first line that isn't the one that is wanted there.
    Differ { line: u64 },
    /// The first line that is refused, or the one inside or before which the input ended.
    Refused { line: u64, kind: RefusalKind },
    ReadFault,
    WriteFault,
    OutOfMemory,
    /// The first line past a limit.
    TooLong { line: u64 },
}
