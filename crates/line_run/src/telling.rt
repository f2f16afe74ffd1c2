ghost use Rattle.std.specs.Prelude.{◌≡◌, ◌≤◌, ◌∷◌, ◌++◌, length, take, map, OnOk, OnErr};
ghost use Rattle.io_edge.specs.Lines.{ended_lines};

use io_edge::{PieceWriter, Printed};
use net_base::OutOfMemory;
use std::alloc::Global;
use trace_text::PrintedLine;

/// Says a line, and below it the line of each of these. Where memory is wanting nothing is said.
pub fn tell_line<T: PrintedLine>(
    alloc: Global,
    line: &[u8],
    below: &[T],
    pieces: &mut PieceWriter,
) -> Result<(), OutOfMemory>
    ensures said { OnOk result (pieces.new ≡ pieces.old ++ ended_lines (line.now ∷ map T.text below.now)) }
    ensures unsaid { OnErr result (pieces.new ≡ pieces.old) }
{
    let before = pieces.len();
    let told = tell_on(alloc, line, below, pieces);
    if told.is_err() {
        pieces.truncate(before);
    }
    told
}

// The same, where a want of memory may come in the middle.
fn tell_on<T: PrintedLine>(
    alloc: Global,
    line: &[u8],
    below: &[T],
    pieces: &mut PieceWriter,
) -> Result<(), OutOfMemory>
    ensures said { OnOk result (pieces.new ≡ pieces.old ++ ended_lines (line.now ∷ map T.text below.now)) }
    ensures more { length pieces.old ≤ length pieces.new }
    ensures front { take (length pieces.old) pieces.new ≡ pieces.old }
{
    pieces.push_line(line)?;
    for item in below {
        pieces.push_printed(alloc, &Below(item))?;
    }
    Ok(())
}

// An item, as a writer takes it.
#[derive(Drop)]
struct Below<'a, T>(&'a T);

impl<T: PrintedLine> Printed for Below<'_, T> {
    ghost text = { λ below. T.text below.0.now };

    fn print(&self, alloc: Global, bytes: &mut Vec<u8>) -> Result<(), OutOfMemory> {
        self.0.print(alloc, bytes)
    }
}
