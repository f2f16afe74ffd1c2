ghost use Rattle.std.specs.Prelude.{◌≡◌};
ghost use Rattle.tool_status.specs.Status.{code_of};

use net_base::{Field, RefusalKind};

/// How a command ended. Lines are numbered from 1.
#[derive(Clone, Copy, PartialEq, Eq)]
pub enum Status {
    /// The work was done to its end.
    Done,
    /// The first line that is not the machine's.
    Differ { line: u64 },
    /// The words are no command.
    Usage,
    /// The first line that is not of the grammar, or the one inside or before which the input ended.
    Refused { line: u64, kind: RefusalKind },
    ReadFault,
    WriteFault,
    OutOfMemory,
    WorldFault,
    FileFault { which: Which },
    /// The first line past a limit on bytes, lines or events.
    TooLong { line: u64 },
    BadSettings { what: What },
    /// A file that has more bytes than a file may have, and how many.
    FileTooLarge { which: Which, size: u64 },
}

/// A file that a command names.
#[derive(Clone, Copy, PartialEq, Eq)]
pub enum Which {
    /// The settings.
    Conf,
    /// The topology.
    Topo,
}

/// What of a file is refused.
#[derive(Clone, Copy, PartialEq, Eq)]
pub enum What {
    /// The settings are no TOML.
    Toml,
    /// The topology is no JSON object.
    Json,
    /// A name, or its value.
    Named(Field),
}

impl Status {
    /// The exit status of the process.
    pub fn code(&self) -> u8
        ensures { result ≡ code_of self.now }
    {
        match self {
            Status::Done => 0,
            Status::Differ { .. } => 1,
            Status::Usage => 2,
            Status::Refused { .. } => 3,
            Status::ReadFault => 4,
            Status::WriteFault => 5,
            Status::OutOfMemory => 6,
            Status::WorldFault => 7,
            Status::FileFault { .. } => 8,
            Status::TooLong { .. } => 9,
            Status::BadSettings { .. } => 10,
            Status::FileTooLarge { .. } => 11,
        }
    }
}
