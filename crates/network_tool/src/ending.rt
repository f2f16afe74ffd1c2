use network_scenario::ScenarioRefusal;
use network_sim::RunEnd;
use std::fmt;

/// How the program ended.
#[derive(Clone, Copy)]
pub(crate) enum Ending {
    Ran(RunEnd),
    Usage,
    FileFault,
    Refused(ScenarioRefusal),
    OutOfMemory,
}

impl Ending {
    /// The exit status of the process: that of the main program, where it has one for this.
    pub(crate) fn code(&self) -> u8 {
        match self {
            Ending::Ran(RunEnd::Done) => 0,
            Ending::Ran(RunEnd::NoTrace) => 1,
            Ending::Usage => 2,
            Ending::Ran(RunEnd::WriteFault) => 5,
            Ending::Ran(RunEnd::OutOfMemory) | Ending::OutOfMemory => 6,
            Ending::FileFault => 8,
            Ending::Refused(_) => 10,
        }
    }
}

impl fmt::Display for Ending {
    fn fmt<W: fmt::Write>(&self, f: &mut fmt::Formatter<W>) -> fmt::Result {
        let text = match self {
            Ending::Ran(RunEnd::Done) => "",
            Ending::Usage => "usage: FILE SEED SECONDS | FILE SEED trace NODE\n",
            Ending::Ran(RunEnd::NoTrace) => "no trace: no engine stepped for this node\n",
            Ending::Ran(RunEnd::WriteFault) => "write fault\n",
            Ending::Ran(RunEnd::OutOfMemory) | Ending::OutOfMemory => "out of memory\n",
            Ending::FileFault => "the file could not be read\n",
            Ending::Refused(refusal) => return writeln!(f, "bad scenario: {refusal}"),
        };
        f.write_str(text)
    }
}
