ghost use Rattle.std.specs.Prelude.{ℕ, List, OnOk};
ghost use Rattle.io_edge.specs.Lines.{FitsLine};
ghost use Rattle.line_run.specs.Meaning.{Meaning, IsInterpreted};

use crate::Stop;
use io_edge::PieceWriter;

/// What gives lines a meaning, one after another.
pub trait Interpreter {
    /// What contracts see of it. An interpreter that holds closures has no value of its own that they could see.
    ghost State: { Type 0 };

    ghost state: { Self → State };

    /// What a line means behind those that were interpreted.
    ghost means: { State → List ℕ → Meaning State };

    /// What each line finds.
    ghost holds: { State → Type 0 };

    /// One line more, given without its line feed. Says the lines that are to be written for it. Once a line ends the
    /// input, is refused or is one too many, or memory is wanting, nothing more may be asked.
    fn interpret(&mut self, line: &[u8], pieces: &mut PieceWriter) -> Result<(), Stop>
        requires fits { FitsLine line.now }
        requires holds { holds (state self.old) }
        ensures meant { IsInterpreted (means (state self.old) line.now) (state self.new) pieces.old pieces.new result }
        ensures holds { OnOk result (holds (state self.new)) };
}
