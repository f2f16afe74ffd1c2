ghost use Rattle.std.specs.Prelude.{◌≡◌, ◌<◌, ◌≤◌, ◌+◌, IfOk, length};
ghost use Rattle.io_edge.specs.Lines.{HasNoLineFeed};
ghost use Rattle.io_edge.specs.Pending.{front_line};
ghost use Rattle.line_run.specs.Meaning.{IsInterpreted};
ghost use Rattle.trace_play.specs.Checking.{Agreed, agreed, nothing_agreed, passing, ending};
ghost use Rattle.trace_play.specs.Playback.{begun, kept};

use crate::playback::Playback;
use crate::report::{tell_agreement, tell_difference, wanted};
use io_edge::PieceWriter;
use line_run::{Interpreter, LINES_MOST, Stop};
use net_base::OutOfMemory;
use std::alloc::Global;
use stepper::Stepper;

/// What is kept of the lines of a trace that agree with their output. Once a line decides or differs, or memory is wanting,
/// nothing more may be asked of it.
#[derive(Drop)]
pub(crate) struct Checker<E: Stepper> {
    pub alloc: Global,
    pub playback: Playback<E>,
    /// How many they are.
    pub lines: u64,
    /// What else of the output is due.
    pub due: PieceWriter,
}

impl<E: Stepper> Checker<E> {
    /// No line was read yet.
    pub(crate) fn new(alloc: Global, means: E::Means) -> Result<Self, OutOfMemory>
        ensures { IfOk result (λ checker. agreed (kept checker.playback.stage checker.playback.heads.items (begun checker.playback.engine E.machine E.events)) checker.lines checker.due ≡ nothing_agreed) }
    {
        let due = PieceWriter::new(alloc)?;
        Ok(Checker {
            alloc,
            playback: Playback::new(alloc, means),
            lines: 0,
            due,
        })
    }

    // A line that passes is the first one that is due, and no longer then, or it differs.
    fn pass(&mut self, line: &[u8], pieces: &mut PieceWriter) -> Result<(), Stop>
        requires one { HasNoLineFeed line.now }
        requires few { self.old.lines < 4_000_000 }
        ensures { IsInterpreted (passing self.old.lines (kept self.old.playback.stage self.old.playback.heads.items (begun self.old.playback.engine E.machine E.events)) line.now self.old.due (front_line self.old.due))
            (agreed (kept self.new.playback.stage self.new.playback.heads.items (begun self.new.playback.engine E.machine E.events)) self.new.lines self.new.due) pieces.old pieces.new result }
    {
        if self.due.first_line_is(line) {
            self.due.skip(line.len() + 1);
            self.lines += 1;
            return Ok(());
        }
        tell_difference(self.alloc, self.lines + 1, line, wanted(&self.due), pieces)?;
        Err(Stop::Differs)
    }

    // At `end` nothing is due any more, or the action that is due is missing.
    fn end(&self, events: u64, actions: u64, pieces: &mut PieceWriter) -> Result<(), Stop>
        requires few { self.now.lines < 4_000_000 }
        ensures { (next : Agreed) → IsInterpreted (ending self.now.lines events actions (front_line self.now.due)) next pieces.old pieces.new result }
    {
        match self.due.first_line() {
            None => {
                tell_agreement(self.alloc, events, actions, pieces)?;
                Err(Stop::Ended)
            }
            Some(want) => {
                tell_difference(self.alloc, self.lines + 1, b"end", want, pieces)?;
                Err(Stop::Differs)
            }
        }
    }
}

impl<E: Stepper> Interpreter for Checker<E> {
    ghost use Rattle.trace_meaning.specs.Heads.{AreHeads};
    ghost use Rattle.trace_play.specs.Checking.{checked};
    ghost use Rattle.trace_play.specs.Playback.{events_taken};

    ghost State = { Agreed };

    ghost state = { λ c. agreed (kept c.playback.stage c.playback.heads.items (begun c.playback.engine E.machine E.events)) c.lines c.due };

    ghost means = { checked };

    ghost holds = { λ before. AreHeads before.playback.stage before.playback.heads × (length before.playback.heads + events_taken before.playback.engine ≤ before.lines) };

    fn interpret(&mut self, line: &[u8], pieces: &mut PieceWriter) -> Result<(), Stop> {
        // No run reads as many, so the count of lines has room.
        if self.lines >= LINES_MOST {
            return Err(Stop::TooMany);
        }
        let events = self.playback.events();
        let actions = self.lines - self.playback.heads.len() as u64 - events;
        match self.playback.line(line, &mut self.due) {
            Ok(()) => self.pass(line, pieces),
            Err(Stop::Ended) => self.end(events, actions, pieces),
            Err(stop) => Err(stop),
        }
    }
}
