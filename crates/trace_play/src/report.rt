ghost use Rattle.std.specs.Prelude.{◌≡◌, [], ◌∷◌, ◌++◌, codes, decimal, OnOk, OnErr, IfOk};
ghost use Rattle.io_edge.specs.Lines.{ended_lines};
ghost use Rattle.io_edge.specs.Pending.{front_line};
ghost use Rattle.line_run.specs.Meaning.{Says};
ghost use Rattle.trace_compare.specs.Compare.{agree, want_line, report_lines};

use io_edge::PieceWriter;
use net_base::{Octets, OutOfMemory};
use std::alloc::Global;

/// Says that all lines agree up to `end`.
pub(crate) fn tell_agreement(
    alloc: Global,
    events: u64,
    actions: u64,
    pieces: &mut PieceWriter,
) -> Result<(), OutOfMemory>
    ensures said { OnOk result (Says pieces.old pieces.new (report_lines (agree events actions))) }
    ensures unsaid { OnErr result (pieces.new ≡ pieces.old) }
{
    let line = format!(in alloc; "agree {events} {actions}")?;
    pieces.push_line(line.as_bytes())
}

/// Says the first line that differs, and what is wanted there. Where memory is wanting nothing is said.
pub(crate) fn tell_difference(
    alloc: Global,
    line: u64,
    found: &[u8],
    want: &[u8],
    pieces: &mut PieceWriter,
) -> Result<(), OutOfMemory>
    ensures said { OnOk result (Says pieces.old pieces.new ((codes "differ " ++ decimal line) ∷ (codes "found " ++ found.now) ∷ (codes "want " ++ want.now) ∷ [])) }
    ensures unsaid { OnErr result (pieces.new ≡ pieces.old) }
{
    let text = difference_text(alloc, line, found, want)?;
    pieces.push_line(text.as_slice())
}

// The three lines but for the last line feed, as one, so that all of them are collected or none.
fn difference_text(
    alloc: Global,
    line: u64,
    found: &[u8],
    want: &[u8],
) -> Result<Octets, OutOfMemory>
    ensures { IfOk result (λ text. text ++ 10 ∷ [] ≡ ended_lines ((codes "differ " ++ decimal line) ∷ (codes "found " ++ found.now) ∷ (codes "want " ++ want.now) ∷ [])) }
{
    let number = format!(in alloc; "differ {line}\n")?;
    let mut text = Octets::from_vec(number.into_bytes());
    text.extend_from_slice(b"found ")?;
    text.extend_from_slice(found)?;
    text.extend_from_slice(b"\nwant ")?;
    text.extend_from_slice(want)?;
    Ok(text)
}

/// The first line that is due, in the report's words.
pub(crate) fn wanted(due: &PieceWriter) -> &[u8]
    ensures { codes "want " ++ result.now ≡ want_line (front_line due.now) }
{
    match due.first_line() {
        Some(line) => line,
        None => b"no action",
    }
}
