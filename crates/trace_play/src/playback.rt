ghost use Rattle.std.specs.Prelude.{◌≡◌, ℕ, ◌<◌, List, [], ◌∷◌, ◌++◌, codes, Some, None, IfOk, OnOk, OnErr, Ok};
ghost use Rattle.io_edge.specs.Lines.{ended_lines};
ghost use Rattle.line_run.specs.Meaning.{IsInterpreted};
ghost use Rattle.machine.specs.Step.{step};
ghost use Rattle.net_base.specs.Bounds.{AreSound};
ghost use Rattle.net_base.specs.Limits.{IsWithinLimits};
ghost use Rattle.trace_meaning.specs.Heads.{AreHeads};
ghost use Rattle.trace_meaning.specs.Settings.{settings_in};
ghost use Rattle.trace_play.specs.Playback.{begun, kept, nothing_kept, events_taken, machine_before, IsLineWithin, IsSaid};
ghost use Rattle.trace_play.specs.Played.{line_means, played, stepped};
ghost use Rattle.trace_text.specs.Stages.{stage_after};
ghost use Rattle.trace_text.specs.declared.line.Line.TheVariants.{Happen, Head};

use crate::beginning::first;
use io_edge::PieceWriter;
use line_run::{Interpreter, Stop, tell_line};
use net_base::{ActionList, Event, OutOfMemory};
use std::alloc::Global;
use std::mem;
use stepper::Stepper;
use trace_text::{HeadLine, Line, LineRefusal, Stage, read_line};

// How many events a trace may have.
const EVENTS_MOST: u64 = 1_000_000;

// The memory of so many actions is kept for those of the next event.
const FEW_ACTIONS: usize = 64;

/// What is kept of the lines of a trace that were read. Once a line decides, or memory is wanting, nothing more may be
/// asked of it.
#[derive(Drop)]
pub(crate) struct Playback<E: Stepper> {
    pub alloc: Global,
    pub stage: Stage,
    /// What the lines of the head say.
    pub heads: Vec<HeadLine>,
    /// They go into what steps.
    pub means: Option<E::Means>,
    /// Made at the first event.
    pub engine: Option<E>,
    /// That of the actions of the last event, where they were few.
    pub memory: ActionList,
}

impl<E: Stepper> Playback<E> {
    /// No line was read yet. Takes no memory.
    pub(crate) fn new(alloc: Global, means: E::Means) -> Self
        ensures { kept result.stage result.heads.items (begun result.engine E.machine E.events) ≡ nothing_kept }
    {
        Playback {
            alloc,
            stage: Stage::first(),
            heads: Vec::new(alloc),
            means: Some(means),
            engine: None,
            memory: ActionList::new(alloc),
        }
    }

    /// How many events were taken.
    pub(crate) fn events(&self) -> u64
        ensures { result ≡ events_taken (begun self.now.engine E.machine E.events) }
    {
        match &self.engine {
            None => 0,
            Some(engine) => engine.taken(),
        }
    }

    // A line of the head.
    #[cold]
    #[inline(never)]
    fn head(
        &mut self,
        head: HeadLine,
        text: &[u8],
        pieces: &mut PieceWriter,
    ) -> Result<(), OutOfMemory>
        ensures stage { OnOk result (self.new.stage ≡ stage_after self.old.stage (Head head)) }
        ensures heads { OnOk result (self.new.heads.items ≡ self.old.heads.items ++ head ∷ []) }
        ensures engine { OnOk result (self.new.engine ≡ self.old.engine) }
        ensures said { OnOk result (pieces.new ≡ pieces.old ++ ended_lines (text.now ∷ [])) }
        ensures unsaid { OnErr result (pieces.new ≡ pieces.old) }
    {
        self.heads.push(head)?;
        pieces.push_line(text)?;
        self.stage = self.stage.after(&Line::Head(head));
        Ok(())
    }

    // An event is taken, by what steps, which is made at the first one.
    fn step(&mut self, event: &Event) -> Result<ActionList, OutOfMemory>
        requires sound { AreSound (settings_in self.old.heads.items) }
        requires few { events_taken (begun self.old.engine E.machine E.events) < 1_000_000 }
        requires within { IsWithinLimits event.now }
        ensures stage { OnOk result (self.new.stage ≡ self.old.stage) }
        ensures heads { OnOk result (self.new.heads ≡ self.old.heads) }
        ensures engine { OnOk result (begun self.new.engine E.machine E.events ≡
            Some (stepped (kept self.old.stage self.old.heads.items (begun self.old.engine E.machine E.events)) event.now)) }
        ensures actions { IfOk result (λ actions. actions ≡
            (step (machine_before (kept self.old.stage self.old.heads.items (begun self.old.engine E.machine E.events))) event.now).actions) }
    {
        let memory = mem::replace(&mut self.memory, ActionList::new(self.alloc));
        if let Some(engine) = &mut self.engine {
            return engine.step(event, memory);
        }
        self.first_step(event)
    }

    // The same of the first event.
    #[cold]
    #[inline(never)]
    fn first_step(&mut self, event: &Event) -> Result<ActionList, OutOfMemory>
        requires sound { AreSound (settings_in self.old.heads.items) }
        requires first { self.old.engine ≡ None }
        requires within { IsWithinLimits event.now }
        ensures stage { OnOk result (self.new.stage ≡ self.old.stage) }
        ensures heads { OnOk result (self.new.heads ≡ self.old.heads) }
        ensures engine { OnOk result (begun self.new.engine E.machine E.events ≡
            Some (stepped (kept self.old.stage self.old.heads.items (begun self.old.engine E.machine E.events)) event.now)) }
        ensures actions { IfOk result (λ actions. actions ≡
            (step (machine_before (kept self.old.stage self.old.heads.items (begun self.old.engine E.machine E.events))) event.now).actions) }
    {
        let mut engine: E = first(self.alloc, self.means.take(), &self.heads)?;
        let actions = engine.step(event, ActionList::new(self.alloc))?;
        self.engine = Some(engine);
        Ok(actions)
    }

    // An event line.
    fn happen(&mut self, event: &Event, text: &[u8], pieces: &mut PieceWriter) -> Result<(), Stop>
        requires sound { AreSound (settings_in self.old.heads.items) }
        requires within { IsWithinLimits event.now }
        ensures { (last : List (List ℕ)) → IsInterpreted (line_means last (kept self.old.stage self.old.heads.items (begun self.old.engine E.machine E.events)) text.now (Happen event.now))
            (kept self.new.stage self.new.heads.items (begun self.new.engine E.machine E.events)) pieces.old pieces.new result }
    {
        if self.events() >= EVENTS_MOST {
            return Err(Stop::TooMany);
        }
        let actions = self.step(event)?;
        tell_line(self.alloc, text, actions.as_slice(), pieces)?;
        self.memory = memory_of(self.alloc, actions);
        self.stage.events = true;
        Ok(())
    }

    // A line, by what it says.
    fn play(&mut self, line: &Line, text: &[u8], pieces: &mut PieceWriter) -> Result<(), Stop>
        requires sound { AreSound (settings_in self.old.heads.items) }
        requires within { IsLineWithin line.now }
        ensures { IsInterpreted (line_means [] (kept self.old.stage self.old.heads.items (begun self.old.engine E.machine E.events)) text.now line.now)
            (kept self.new.stage self.new.heads.items (begun self.new.engine E.machine E.events)) pieces.old pieces.new result }
    {
        match line {
            Line::Head(head) => Ok(self.head(*head, text, pieces)?),
            Line::Happen(event) => self.happen(event, text, pieces),
            Line::Acted => Ok(()),
            Line::End => Err(Stop::Ended),
        }
    }

    /// One line more, given without its line feed. Says the lines that are to be written for it, but for the last one.
    pub(crate) fn line(&mut self, text: &[u8], pieces: &mut PieceWriter) -> Result<(), Stop>
        requires heads { AreHeads self.old.stage self.old.heads.items }
        ensures { IsInterpreted (played [] (kept self.old.stage self.old.heads.items (begun self.old.engine E.machine E.events)) text.now)
            (kept self.new.stage self.new.heads.items (begun self.new.engine E.machine E.events)) pieces.old pieces.new result }
    {
        match read(self.alloc, &self.stage, text) {
            Ok(Line::Acted) => Ok(()),
            Ok(line) => self.play(&line, text, pieces),
            Err(refusal) => Err(Stop::from(refusal)),
        }
    }
}

impl<E: Stepper> Interpreter for Playback<E> {
    ghost use Rattle.trace_play.specs.Playback.{Kept};

    ghost State = { Kept };

    ghost state = { λ p. kept p.stage p.heads.items (begun p.engine E.machine E.events) };

    ghost means = { played (codes "end" ∷ []) };

    ghost holds = { λ playback. AreHeads playback.stage playback.heads };

    fn interpret(&mut self, line: &[u8], pieces: &mut PieceWriter) -> Result<(), Stop> {
        match self.line(line, pieces) {
            Err(Stop::Ended) => {
                pieces.push_line(b"end")?;
                Err(Stop::Ended)
            }
            result => result,
        }
    }
}

// What a line says.
fn read(alloc: Global, stage: &Stage, text: &[u8]) -> Result<Line, LineRefusal>
    ensures said { IsSaid stage.now text.now result }
    ensures within { IfOk result IsLineWithin }
{
    read_line(alloc, stage, text)
}

// The memory of few actions. An event with many holds none behind it.
fn memory_of(alloc: Global, actions: ActionList) -> ActionList {
    if actions.as_slice().len() > FEW_ACTIONS {
        return ActionList::new(alloc);
    }
    actions
}
