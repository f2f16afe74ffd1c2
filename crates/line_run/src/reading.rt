ghost use Rattle.std.specs.Prelude.{◌≡◌, ℕ, MatchResult, OnOk, IfErr};
ghost use Rattle.io_edge.specs.Lines.{FitsLine};
ghost use Rattle.line_run.specs.LineRead.{line_put, IsLineRead};
ghost use Rattle.line_run.specs.Runs.{HasReadCount, HasWriteCount};

use crate::LineOutcome;
use io_edge::{Got, LineFault, LineReader, Source};
use net_base::RefusalKind;

/// Reads the line with a number into a buffer, in place of what it held.
pub fn read_line<S: Source>(
    number: u64,
    reader: &mut LineReader,
    line: &mut Vec<u8>,
    src: &mut S,
) -> Result<(), LineOutcome>
    ensures read { IsLineRead number reader.old reader.new (S.left src.old) (S.left src.new) (line_put line.new.items result) }
    ensures fits { OnOk result (FitsLine line.new.items) }
    ensures reads { MatchResult result (λ _. S.faults src.new ≡ S.faults src.old) (HasReadCount (S.faults src.old) (S.faults src.new)) }
    ensures writes { (count : ℕ) → IfErr result (HasWriteCount count count) }
{
    match reader.next_line(src) {
        Ok(Got::Line(got)) => {
            *line = got.into_vec();
            Ok(())
        }
        Ok(Got::Over) => Err(LineOutcome::Refused {
            line: number,
            kind: RefusalKind::NoEnd,
        }),
        Err(LineFault::Failed) => Err(LineOutcome::ReadFault),
        Err(LineFault::TooLong) => Err(LineOutcome::TooLong { line: number }),
        Err(LineFault::OutOfMemory) => Err(LineOutcome::OutOfMemory),
    }
}
