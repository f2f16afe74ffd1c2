//! How the trace of a node is kept, where it is wanted.

ghost use Rattle.std.specs.Prelude.{◌≡◌, [], ◌∷◌, ◌++◌, codes, IfOk, OnOk};
ghost use Rattle.io_edge.specs.Lines.{ended_lines};
ghost use Rattle.network_sim.specs.Keeps.{KeepsOn};
ghost use Rattle.network_sim.specs.Seat.{IsKept, Agrees};
ghost use Rattle.trace_meaning.specs.Output.{told_event};
ghost use Rattle.trace_text.specs.EventTexts.{printed_event, IsEventIn};

use crate::kept::Kept;
use crate::trace::Trace;
use io_edge::PieceWriter;
use line_run::tell_line;
use net_base::{Action, Event, OutOfMemory, Settings};
use std::alloc::Global;
use trace_compare::{hold_address, hold_event};
use trace_text::{print_event, print_head};

/// That of a node to which nothing has happened, where it is traced.
pub(crate) fn keep_first(
    alloc: Global,
    settings: &Settings,
    is_traced: bool,
) -> Result<Option<Kept>, OutOfMemory>
    requires { settings.now.version ≡ 2 }
    ensures { IfOk result (IsKept settings.now []) }
{
    hold_address(settings.own);
    if !is_traced {
        return Ok(None);
    }
    let head = print_head(alloc, settings)?;
    let lines = PieceWriter::new(alloc)?;
    Ok(Some(Kept { head, lines }))
}

/// The node has taken an event, with these actions.
pub(crate) fn keep_on(
    alloc: Global,
    kept: &mut Option<Kept>,
    event: &Event,
    actions: &[Action],
) -> Result<(), OutOfMemory>
    ensures { OnOk result (KeepsOn event.now actions.now kept.old kept.new) }
{
    match kept {
        Some(kept) => {
            tell(alloc, kept, event, actions)?;
            Ok(())
        }
        None => Ok(()),
    }
}

/// With its end.
pub(crate) fn keep_whole(kept: Kept) -> Result<Trace, OutOfMemory>
    requires { ∥ Agrees kept.head (kept.lines ++ (codes "end" ++ 10 ∷ [])) ∥₁ }
{
    let Kept { head, lines } = kept;
    let mut lines = lines;
    lines.push_line(b"end")?;
    Ok(Trace { head, lines })
}

fn tell(
    alloc: Global,
    kept: &mut Kept,
    event: &Event,
    actions: &[Action],
) -> Result<(), OutOfMemory>
    ensures head { kept.new.head ≡ kept.old.head }
    ensures lines { OnOk result (kept.new.lines ≡ kept.old.lines ++ ended_lines (told_event (printed_event event.now, actions.now))) }
    ensures traceable { OnOk result (IsEventIn 2 event.now) }
{
    hold_event(event);
    let line = print_event(alloc, event)?;
    tell_line(alloc, line.as_slice(), actions, &mut kept.lines)
}
