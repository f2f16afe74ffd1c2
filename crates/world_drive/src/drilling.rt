ghost use Rattle.std.specs.Prelude.{◌≡◌, ◌≤◌, IfOk, OnOk};
ghost use Rattle.world_drive.specs.Drill.{drilled, tallies, drill_text, IsDrilled};
ghost use Rattle.world_drive.specs.DrillCourse.{StandsAt};
ghost use Rattle.world_drive.specs.Lawful.{DrillsLawfully};
ghost use Rattle.trace_meaning.specs.FaultCounts.{HasWriteCount};

use crate::course::Course;
use crate::law::drills_are_lawful;
use crate::tallies::Tallies;
use engine_start::{Pickers, ranked_score, score};
use io_edge::{PieceWriter, Sink};
use net_base::{Addr, OutOfMemory};
use pick_policy::{Picker, RankedPicker};
use std::alloc::Global;
use trace_meaning::{Outcome, put_pending};

/// Runs the machine in the made town of a seed for as many events, and writes what was counted: eight lines, in one
/// piece, at the end.
pub fn drill<K: Sink>(alloc: Global, seed: u64, count: u64, out: &mut K) -> Outcome
    requires few { count ≤ 1_000_000 }
    ensures drilled { IsDrilled (drill_text seed count) (K.taken out.old) (K.taken out.new) result }
    ensures lawful { DrillsLawfully seed count (K.taken out.old) (K.taken out.new) result }
    ensures writes { HasWriteCount (K.faults out.old) (K.faults out.new) result }
{
    drills_are_lawful();
    match told(alloc, seed, count) {
        Ok(mut pieces) => match put_pending(&mut pieces, out) {
            Ok(()) => Outcome::Done,
            Err(fault) => fault,
        },
        Err(OutOfMemory) => Outcome::OutOfMemory,
    }
}

// The eight lines.
fn told(alloc: Global, seed: u64, count: u64) -> Result<PieceWriter, OutOfMemory>
    requires few { count ≤ 1_000_000 }
    ensures { IfOk result (λ pieces. pieces ≡ drill_text seed count) }
{
    tallies(alloc, seed, count)?.told(alloc)
}

// What is counted.
fn tallies(alloc: Global, seed: u64, count: u64) -> Result<Tallies, OutOfMemory>
    requires few { count ≤ 1_000_000 }
    ensures { IfOk result (λ t. t ≡ tallies seed count) }
{
    let picker = Picker::new(Box::new(alloc, |addr: Addr, word: u64| score(addr, word))?);
    let ranked = RankedPicker::new(Box::new(alloc, |addr: Addr, failures: u64, word: u64| {
        ranked_score(addr, failures, word)
    })?);
    let mut course = Course::new(alloc, seed, Pickers { picker, ranked })?;
    run(seed, count, &mut course)?;
    Ok(course.tallies())
}

// The town of a seed behind as many events.
fn run(seed: u64, count: u64, course: &mut Course) -> Result<(), OutOfMemory>
    requires few { count ≤ 1_000_000 }
    requires none { course.old.engine.events ≡ 0 }
    requires begun { StandsAt course.old.world.town course.old.engine.machine course.old.counts (drilled seed 0) }
    ensures stands { OnOk result (StandsAt course.new.world.town course.new.engine.machine course.new.counts (drilled seed count)) }
    ensures events { OnOk result (course.new.engine.events ≡ count) }
{
    for turn in 0..count {
        course.turn()?;
    }
    Ok(())
}
