ghost use Rattle.std.specs.Prelude.{◌≡◌, ℕ, ◌+◌, ◌≤◌, List, [], Option, Some, MatchResult, OnOk, IfErr};
ghost use Rattle.io_edge.specs.Causes.{HasCause};
ghost use Rattle.io_edge.specs.Lines.{FitsLine};
ghost use Rattle.io_edge.specs.Told.{Takes, TakesProperPrefix, TakesFront};
ghost use Rattle.line_run.specs.Inputs.{IsRunOver};
ghost use Rattle.line_run.specs.LineRead.{line_put};
ghost use Rattle.line_run.specs.Runs.{Runs, outcome_or, HasReadCount, HasWriteCount};
ghost use Rattle.line_run.specs.UnderWay.{IsUnderWay, IsTurn, IsLineNext, IsInterpretedAt, Ends, outcome_at};

use crate::reading::read_line;
use crate::{Interpreter, LineOutcome, Stop};
use io_edge::{LineReader, PieceWriter, Sink, Source};
use net_base::OutOfMemory;
use std::alloc::Global;

/// How many lines an input may have.
pub const LINES_MOST: u64 = 4_000_000;

/// Reads lines from a source, has each interpreted, and writes what they give. Reading stops at the line that decides, and
/// nothing is read behind it but what came with it. What is written is put in pieces: before each reading, and where much
/// has collected.
pub fn run_lines<I: Interpreter, S: Source, K: Sink>(
    alloc: Global,
    interpreter: &mut I,
    src: &mut S,
    out: &mut K,
) -> LineOutcome
    requires holds { I.holds (I.state interpreter.old) }
    ensures runs { Runs I.means (I.state interpreter.old) (S.left src.old) (S.left src.new) (K.taken out.old) (K.taken out.new) result }
    ensures over { (input : List ℕ) → S.left src.old ≡ Some input → IsRunOver I.means (I.state interpreter.old) input result (S.left src.new) (K.taken out.old) (K.taken out.new) }
    ensures reads { HasReadCount (S.faults src.old) (S.faults src.new) result }
    ensures writes { HasWriteCount (K.faults out.old) (K.faults out.new) result }
{
    outcome_or_memory(run_anew(alloc, interpreter, src, out))
}

fn outcome_or_memory(outcome: Result<LineOutcome, OutOfMemory>) -> LineOutcome
    ensures { result ≡ outcome_or outcome }
{
    match outcome {
        Ok(outcome) => outcome,
        Err(OutOfMemory) => LineOutcome::OutOfMemory,
    }
}

// Nothing is read or written where there is no memory for a line and a piece.
fn run_anew<I: Interpreter, S: Source, K: Sink>(
    alloc: Global,
    interpreter: &mut I,
    src: &mut S,
    out: &mut K,
) -> Result<LineOutcome, OutOfMemory>
    requires holds { I.holds (I.state interpreter.old) }
    ensures runs { Runs I.means (I.state interpreter.old) (S.left src.old) (S.left src.new) (K.taken out.old) (K.taken out.new) (outcome_or result) }
    ensures reads { HasReadCount (S.faults src.old) (S.faults src.new) (outcome_or result) }
    ensures writes { HasWriteCount (K.faults out.old) (K.faults out.new) (outcome_or result) }
{
    let mut reader = LineReader::new(alloc)?;
    let mut pieces = PieceWriter::new(alloc)?;
    let outcome = run_from(alloc, interpreter, &mut reader, &mut pieces, src, out);
    Ok(close::<I, K>(outcome, &mut pieces, out))
}

// Runs over an input of which nothing was read yet. What is said at the end is pending still.
fn run_from<I: Interpreter, S: Source, K: Sink>(
    alloc: Global,
    interpreter: &mut I,
    reader: &mut LineReader,
    pieces: &mut PieceWriter,
    src: &mut S,
    out: &mut K,
) -> LineOutcome
    requires fresh { reader.old ≡ [] }
    requires silent { pieces.old ≡ [] }
    requires holds { I.holds (I.state interpreter.old) }
    ensures ends { Ends I.means (I.state interpreter.old) (S.left src.old) (S.left src.new) (K.taken out.old) (K.taken out.new) pieces.new result }
    ensures reads { HasReadCount (S.faults src.old) (S.faults src.new) result }
    ensures writes { HasWriteCount (K.faults out.old) (K.faults out.new) result }
{
    // Each line in turn, in memory that is used again.
    let mut line = Vec::new(alloc);
    for number in 1..=LINES_MOST {
        match turn(number, interpreter, reader, &mut line, pieces, src, out) {
            Ok(()) => {}
            Err(outcome) => return outcome,
        }
    }
    LineOutcome::TooLong {
        line: LINES_MOST + 1,
    }
}

// Reads the line with a number into a buffer, has it interpreted, and says what it gives.
fn turn<I: Interpreter, S: Source, K: Sink>(
    number: u64,
    interpreter: &mut I,
    reader: &mut LineReader,
    line: &mut Vec<u8>,
    pieces: &mut PieceWriter,
    src: &mut S,
    out: &mut K,
) -> Result<(), LineOutcome>
    requires few { number ≤ 4_000_000 }
    requires holds { I.holds (I.state interpreter.old) }
    ensures holds { OnOk result (I.holds (I.state interpreter.new)) }
    ensures turn { (start : I.State) (left taken : Option (List ℕ)) →
        IsUnderWay I.means start number (I.state interpreter.old) reader.old pieces.old left (S.left src.old) taken (K.taken out.old) →
        IsTurn I.means start number (I.state interpreter.new) reader.new pieces.new left (S.left src.new) taken (K.taken out.new) result }
    ensures reads { MatchResult result (λ _. S.faults src.new ≡ S.faults src.old) (HasReadCount (S.faults src.old) (S.faults src.new)) }
    ensures writes { MatchResult result (λ _. K.faults out.new ≡ K.faults out.old) (HasWriteCount (K.faults out.old) (K.faults out.new)) }
{
    interpret_next(number, interpreter, reader, line, pieces, src, out)?;
    put_full(pieces, out)
}

// Has the line with a number interpreted. It is lent where it can be.
fn interpret_next<I: Interpreter, S: Source, K: Sink>(
    number: u64,
    interpreter: &mut I,
    reader: &mut LineReader,
    line: &mut Vec<u8>,
    pieces: &mut PieceWriter,
    src: &mut S,
    out: &mut K,
) -> Result<(), LineOutcome>
    requires few { number ≤ 4_000_000 }
    requires holds { I.holds (I.state interpreter.old) }
    ensures holds { OnOk result (I.holds (I.state interpreter.new)) }
    ensures turn { (start : I.State) (left taken : Option (List ℕ)) →
        IsUnderWay I.means start number (I.state interpreter.old) reader.old pieces.old left (S.left src.old) taken (K.taken out.old) →
        IsTurn I.means start number (I.state interpreter.new) reader.new pieces.new left (S.left src.new) taken (K.taken out.new) result }
    ensures reads { MatchResult result (λ _. S.faults src.new ≡ S.faults src.old) (HasReadCount (S.faults src.old) (S.faults src.new)) }
    ensures writes { MatchResult result (λ _. K.faults out.new ≡ K.faults out.old) (HasWriteCount (K.faults out.old) (K.faults out.new)) }
{
    match reader.whole_line() {
        Some(line) => {
            let count = line.len();
            let played = interpret_at(number, interpreter, line, pieces);
            reader.skip(count + 1);
            played
        }
        None => interpret_asked(number, interpreter, reader, line, pieces, src, out),
    }
}

// The same of a line that can't be lent.
#[cold]
#[inline(never)]
fn interpret_asked<I: Interpreter, S: Source, K: Sink>(
    number: u64,
    interpreter: &mut I,
    reader: &mut LineReader,
    line: &mut Vec<u8>,
    pieces: &mut PieceWriter,
    src: &mut S,
    out: &mut K,
) -> Result<(), LineOutcome>
    requires few { number ≤ 4_000_000 }
    requires holds { I.holds (I.state interpreter.old) }
    ensures holds { OnOk result (I.holds (I.state interpreter.new)) }
    ensures turn { (start : I.State) (left taken : Option (List ℕ)) →
        IsUnderWay I.means start number (I.state interpreter.old) reader.old pieces.old left (S.left src.old) taken (K.taken out.old) →
        IsTurn I.means start number (I.state interpreter.new) reader.new pieces.new left (S.left src.new) taken (K.taken out.new) result }
    ensures reads { MatchResult result (λ _. S.faults src.new ≡ S.faults src.old) (HasReadCount (S.faults src.old) (S.faults src.new)) }
    ensures writes { MatchResult result (λ _. K.faults out.new ≡ K.faults out.old) (HasWriteCount (K.faults out.old) (K.faults out.new)) }
{
    next_line::<I, S, K>(number, reader, line, pieces, src, out)?;
    interpret_at(number, interpreter, line, pieces)
}

// Puts the line with a number into a buffer. Before the source is asked for more, which may wait, all that was said is put.
fn next_line<I: Interpreter, S: Source, K: Sink>(
    number: u64,
    reader: &mut LineReader,
    line: &mut Vec<u8>,
    pieces: &mut PieceWriter,
    src: &mut S,
    out: &mut K,
) -> Result<(), LineOutcome>
    requires few { number ≤ 4_000_000 }
    ensures next { (start state : I.State) (left taken : Option (List ℕ)) →
        IsUnderWay I.means start number state reader.old pieces.old left (S.left src.old) taken (K.taken out.old) →
        IsLineNext I.means start number state reader.new pieces.new left (S.left src.new) taken (K.taken out.new) (line_put line.new.items result) }
    ensures fits { OnOk result (FitsLine line.new.items) }
    ensures reads { MatchResult result (λ _. S.faults src.new ≡ S.faults src.old) (HasReadCount (S.faults src.old) (S.faults src.new)) }
    ensures writes { MatchResult result (λ _. K.faults out.new ≡ K.faults out.old) (HasWriteCount (K.faults out.old) (K.faults out.new)) }
{
    match reader.kept_line(line) {
        Ok(true) => Ok(()),
        Ok(false) => {
            put(pieces, out)?;
            read_line(number, reader, line, src)
        }
        Err(OutOfMemory) => Err(LineOutcome::OutOfMemory),
    }
}

// Has a line interpreted, and tells how the run ends at it.
fn interpret_at<I: Interpreter>(
    number: u64,
    interpreter: &mut I,
    line: &[u8],
    pieces: &mut PieceWriter,
) -> Result<(), LineOutcome>
    requires fits { FitsLine line.now }
    requires holds { I.holds (I.state interpreter.old) }
    ensures holds { OnOk result (I.holds (I.state interpreter.new)) }
    ensures said { IsInterpretedAt number (I.means (I.state interpreter.old) line.now) (I.state interpreter.new) pieces.old pieces.new result }
    ensures reads { (count : ℕ) → IfErr result (HasReadCount count count) }
    ensures writes { (count : ℕ) → IfErr result (HasWriteCount count count) }
{
    match interpreter.interpret(line, pieces) {
        Ok(()) => Ok(()),
        Err(stop) => Err(outcome_at(number, stop)),
    }
}

// How the run ends where its interpreter stops at the line with a number. Want of memory alone is told as such.
fn outcome_at(number: u64, stop: Stop) -> LineOutcome
    ensures { result ≡ outcome_at number stop }
{
    match stop {
        Stop::Ended => LineOutcome::Done,
        Stop::Differs => LineOutcome::Differ { line: number },
        Stop::Refused(kind) => LineOutcome::Refused { line: number, kind },
        Stop::TooMany => LineOutcome::TooLong { line: number },
        Stop::OutOfMemory => LineOutcome::OutOfMemory,
    }
}

// Puts what is pending where a run ends. After a fault nothing more is put: before a reading all was.
fn close<I: Interpreter, K: Sink>(
    outcome: LineOutcome,
    pieces: &mut PieceWriter,
    out: &mut K,
) -> LineOutcome
    ensures closed { (start : I.State) (l0 l1 t0 : Option (List ℕ)) →
        Ends I.means start l0 l1 t0 (K.taken out.old) pieces.old outcome → Runs I.means start l0 l1 t0 (K.taken out.new) result }
    ensures reads { (before now : ℕ) → HasReadCount before now outcome → HasReadCount before now result }
    ensures writes { (before : ℕ) → HasWriteCount before (K.faults out.old) outcome → HasWriteCount before (K.faults out.new) result }
{
    match outcome {
        LineOutcome::ReadFault | LineOutcome::WriteFault => outcome,
        _ => match put(pieces, out) {
            Ok(()) => outcome,
            Err(fault) => fault,
        },
    }
}

// Puts what is pending where it makes a piece.
fn put_full<K: Sink>(pieces: &mut PieceWriter, out: &mut K) -> Result<(), LineOutcome>
    ensures front { TakesFront (K.taken out.old) (K.taken out.new) pieces.old pieces.new }
    ensures part { IfErr result (λ outcome. TakesProperPrefix (K.taken out.old) (K.taken out.new) pieces.old) }
    ensures fault { IfErr result (λ outcome. outcome ≡ LineOutcome.WriteFault) }
    ensures cause { HasCause (K.faults out.old) (K.faults out.new) result }
{
    if pieces.is_full() {
        put(pieces, out)
    } else {
        Ok(())
    }
}

// Puts all that is pending.
fn put<K: Sink>(pieces: &mut PieceWriter, out: &mut K) -> Result<(), LineOutcome>
    ensures front { TakesFront (K.taken out.old) (K.taken out.new) pieces.old pieces.new }
    ensures whole { OnOk result (Takes (K.taken out.old) (K.taken out.new) pieces.old) }
    ensures silent { OnOk result (pieces.new ≡ []) }
    ensures part { IfErr result (λ outcome. TakesProperPrefix (K.taken out.old) (K.taken out.new) pieces.old) }
    ensures fault { IfErr result (λ outcome. outcome ≡ LineOutcome.WriteFault) }
    ensures cause { HasCause (K.faults out.old) (K.faults out.new) result }
{
    match pieces.put(out) {
        Ok(()) => Ok(()),
        Err(_) => Err(LineOutcome::WriteFault),
    }
}
