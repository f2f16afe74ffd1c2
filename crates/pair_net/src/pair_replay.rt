ghost use Rattle.std.specs.Prelude.{◌≡◌, ⊤, false, IfOk};
ghost use Rattle.line_run.specs.Meaning.{IsInterpreted};
ghost use Rattle.pair_net.specs.Replay.{step_means, line_means, IsOffered, IsMeant};

use crate::pair_line::{PairLine, read_info, read_later, read_opening};
use crate::{Pair, PairStep};
use hs_message::VersionInfo;
use io_edge::PieceWriter;
use line_run::{Interpreter, Stop, tell_line};
use std::alloc::Global;
use std::marker::Model;

// How many steps a pair may have.
const STEPS_MOST: u64 = 1_000_000;

/// How far the lines of a pair have come, by the line that is due.
#[derive(Drop)]
pub(crate) enum Progress {
    Opening,
    Left,
    /// What the left end says of itself is known.
    Right(VersionInfo),
    /// The pair, and how many steps it has made.
    Steps(Pair, u64),
}

/// A pair, as lines make it and lead it on.
#[derive(Drop)]
pub(crate) struct PairReplay {
    alloc: Global,
    progress: Progress,
}

impl Model for PairReplay {
    ghost use Rattle.pair_net.specs.Replay.{IsOffered};
    ghost use Rattle.pair_net.specs.declared.pair_replay.Progress.{Progress};

    ghost Value = { Progress };

    ghost view = { λ p. p.progress };

    ghost invariant = { λ p. IsOffered p.progress };
}

impl PairReplay {
    /// No line was read yet. Takes no memory.
    pub(crate) fn new(alloc: Global) -> Self
        ensures { result ≡ Progress.Opening }
    {
        PairReplay {
            alloc,
            progress: Progress::Opening,
        }
    }
}

impl Interpreter for PairReplay {
    ghost use Rattle.pair_net.specs.declared.pair_replay.Progress.{Progress};

    ghost State = { Progress };

    ghost state = { λ r. r };

    ghost means = { line_means };

    ghost holds = { λ _. ⊤ };

    fn interpret(&mut self, line: &[u8], pieces: &mut PieceWriter) -> Result<(), Stop> {
        go_on(self.alloc, &mut self.progress, line, pieces)
    }
}

// A line leads on. Says the lines that are written for it. The pair is led where it stands.
fn go_on(
    alloc: Global,
    progress: &mut Progress,
    line: &[u8],
    pieces: &mut PieceWriter,
) -> Result<(), Stop>
    requires { IsOffered progress.old }
    ensures meant { IsInterpreted (line_means progress.old line.now) progress.new pieces.old pieces.new result }
    ensures offered { IsOffered progress.new }
{
    match progress {
        Progress::Opening => {
            *progress = open(line, pieces)?;
            Ok(())
        }
        Progress::Left => {
            *progress = name_left(line, pieces)?;
            Ok(())
        }
        Progress::Right(left) => {
            let left = *left;
            *progress = name_right(alloc, left, line, pieces)?;
            Ok(())
        }
        Progress::Steps(pair, count) => lead(alloc, pair, count, line, pieces),
    }
}

fn open(line: &[u8], pieces: &mut PieceWriter) -> Result<Progress, Stop>
    ensures meant { IsMeant (line_means Progress.Opening line.now) pieces.old pieces.new result }
    ensures offered { IfOk result IsOffered }
{
    match read_opening(line) {
        Ok(()) => {
            pieces.push_line(line)?;
            Ok(Progress::Left)
        }
        Err(refusal) => Err(Stop::from(refusal)),
    }
}

fn name_left(line: &[u8], pieces: &mut PieceWriter) -> Result<Progress, Stop>
    ensures meant { IsMeant (line_means Progress.Left line.now) pieces.old pieces.new result }
    ensures offered { IfOk result IsOffered }
{
    match read_info("left", line) {
        Ok(left) => {
            pieces.push_line(line)?;
            Ok(Progress::Right(left))
        }
        Err(refusal) => Err(Stop::from(refusal)),
    }
}

fn name_right(
    alloc: Global,
    left: VersionInfo,
    line: &[u8],
    pieces: &mut PieceWriter,
) -> Result<Progress, Stop>
    requires { left.query ≡ false }
    ensures meant { IsMeant (line_means (Progress.Right left) line.now) pieces.old pieces.new result }
    ensures offered { IfOk result IsOffered }
{
    match read_info("right", line) {
        Ok(right) => {
            pieces.push_line(line)?;
            Ok(Progress::Steps(Pair::new(alloc, left, right), 0))
        }
        Err(refusal) => Err(Stop::from(refusal)),
    }
}

// A pair that has made so many steps is led on by a line.
fn lead(
    alloc: Global,
    pair: &mut Pair,
    count: &mut u64,
    line: &[u8],
    pieces: &mut PieceWriter,
) -> Result<(), Stop>
    ensures { IsInterpreted (line_means (Progress.Steps pair.old count.old) line.now) (Progress.Steps pair.new count.new) pieces.old pieces.new result }
{
    match read_later(line) {
        Ok(PairLine::Step(step)) => take_step(alloc, pair, count, step, line, pieces),
        Ok(PairLine::Skipped) => Ok(()),
        Ok(PairLine::End) => {
            pieces.push_line(line)?;
            Err(Stop::Ended)
        }
        Err(refusal) => Err(Stop::from(refusal)),
    }
}

fn take_step(
    alloc: Global,
    pair: &mut Pair,
    count: &mut u64,
    step: PairStep,
    line: &[u8],
    pieces: &mut PieceWriter,
) -> Result<(), Stop>
    ensures { IsInterpreted (step_means pair.old count.old line.now (PairLine.Step step)) (Progress.Steps pair.new count.new) pieces.old pieces.new result }
{
    if *count >= STEPS_MOST {
        return Err(Stop::TooMany);
    }
    let notes = pair.advance(step)?;
    tell_line(alloc, line, notes.as_slice(), pieces)?;
    *count += 1;
    Ok(())
}
