ghost use Rattle.std.specs.Prelude.{◌≡◌, ◌*◌, ◌+◌, ◌-◌, ◌<◌, ◌∷◌, List, ℕ, length, reverse, IfOk, OnErr};
ghost use Rattle.cbor_items.specs.declared.level.Level.TheVariants.{Items, ToBreak};
ghost use Rattle.cbor_items.specs.Item.{level_limit};
ghost use Rattle.cbor_items.specs.Scan.{skip_pair, skip_item, scan_of};
ghost use Rattle.cbor_items.specs.Level.{skip_thing, skip_open};
ghost use Rattle.cbor_items.specs.Resume.{HasSeen};
ghost use Rattle.cbor_items.specs.Steps.{levels_of, Goes, StepsTo, HasEnded, AnswersBy};

use crate::Scan;
use crate::halt::Halt;
use crate::item::{skip_chunk, split_break};
use crate::level::{Level, Thing};
use crate::opening::begin_item;
use crate::stack::Levels;
use crate::stop::Stop;
use net_base::OutOfMemory;
use std::alloc::Global;
use std::marker::Model;

/// The scan of an item that comes in pieces. It keeps where it stopped, and goes on from there.
#[derive(Drop)]
pub struct ItemScan {
    passed: usize,
    levels: Levels,
}

impl Model for ItemScan {
    ghost use Rattle.cbor_items.specs.Resume.{Place};
    ghost use Rattle.cbor_items.specs.Steps.{levels_of};

    ghost Value = { Place };

    ghost view = { λ s. record { passed = s.passed; levels = levels_of s.levels } };
}

impl ItemScan {
    /// Nothing was scanned yet. Takes no memory.
    pub fn new(alloc: Global) -> Self
        ensures { (bytes : List ℕ) → HasSeen result bytes }
    {
        ItemScan {
            passed: 0,
            levels: Levels::new(alloc),
        }
    }

    /// Scans the first item of the bytes, which begin with all bytes that were scanned before: what was passed over then is not
    /// looked at again. The answer is that of [`first_item`](crate::first_item).
    pub fn resume(&mut self, bytes: &[u8]) -> Result<Scan, OutOfMemory>
        requires { HasSeen self.old bytes.now }
        ensures scan { IfOk result (λ answer. answer ≡ scan_of bytes.now) }
        ensures seen { HasSeen self.new bytes.now }
    {
        let (rest, ended) = run(&mut self.levels, &bytes[self.passed..]);
        self.passed = bytes.len() - rest.len();
        answer(self.passed, ended)
    }
}

fn answer(passed: usize, ended: Result<(), Halt>) -> Result<Scan, OutOfMemory>
    ensures { AnswersBy passed ended result }
{
    match ended {
        Ok(()) => Ok(Scan::Whole(passed)),
        Err(Halt::Stopped(Stop::More)) => Ok(Scan::More),
        Err(Halt::Stopped(Stop::Bad)) => Ok(Scan::Bad),
        Err(Halt::Stopped(Stop::Deep)) => Ok(Scan::Deep),
        Err(Halt::NoMemory) => Err(OutOfMemory),
    }
}

// Goes on as far as the bytes decide: the bytes that are not passed over, and how it ended there.
fn run<'a>(levels: &mut Levels, bytes: &'a [u8]) -> (&'a [u8], Result<(), Halt>)
    ensures goes { Goes (skip_open (levels_of levels.old)) bytes.now (skip_open (levels_of levels.new)) result.0.now }
    ensures ended { HasEnded (skip_open (levels_of levels.new)) result.0.now result.1 }
{
    let mut rest = bytes;
    while !levels.are_done() {
        match step(levels, rest) {
            Ok(after) => rest = after,
            Err(halt) => return (rest, Err(halt)),
        }
    }
    (rest, Ok(()))
}

// Goes on over a head, a string or a break, or out of a level.
fn step<'a>(levels: &mut Levels, bytes: &'a [u8]) -> Result<&'a [u8], Halt>
    requires { levels.old.here ≡ Items 0 → 0 < length levels.old.around.items }
    ensures step { StepsTo (λ rest. rest.now) (skip_open (levels_of levels.old)) bytes.now (skip_open (levels_of levels.new)) result }
    ensures less { IfOk result (λ rest. 2 * length rest.now + length levels.new.around.items < 2 * length bytes.now + length levels.old.around.items) }
    ensures err { OnErr result (levels_of levels.new ≡ levels_of levels.old) }
{
    match levels.here {
        Level::Items(count) => pass_items(levels, count, bytes),
        Level::Value => pass_item(levels, Level::ToBreak(Thing::Entry), bytes),
        Level::ToBreak(thing) => pass_to_break(levels, thing, bytes),
    }
}

fn pass_items<'a>(levels: &mut Levels, count: u128, bytes: &'a [u8]) -> Result<&'a [u8], Halt>
    requires here { levels.old.here ≡ Items count }
    requires around { count ≡ 0 → 0 < length levels.old.around.items }
    ensures step { StepsTo (λ rest. rest.now) (skip_open (levels_of levels.old)) bytes.now (skip_open (levels_of levels.new)) result }
    ensures less { IfOk result (λ rest. 2 * length rest.now + length levels.new.around.items < 2 * length bytes.now + length levels.old.around.items) }
    ensures err { OnErr result (levels_of levels.new ≡ levels_of levels.old) }
{
    match count.checked_sub(1) {
        None => {
            levels.leave();
            Ok(bytes)
        }
        Some(left) => pass_item(levels, Level::Items(left), bytes),
    }
}

fn pass_to_break<'a>(levels: &mut Levels, thing: Thing, bytes: &'a [u8]) -> Result<&'a [u8], Halt>
    requires { levels.old.here ≡ ToBreak thing }
    ensures step { StepsTo (λ rest. rest.now) (skip_open (levels_of levels.old)) bytes.now (skip_open (levels_of levels.new)) result }
    ensures less { IfOk result (λ rest. 2 * length rest.now + length levels.new.around.items < 2 * length bytes.now + length levels.old.around.items) }
    ensures err { OnErr result (levels_of levels.new ≡ levels_of levels.old) }
{
    match split_break(bytes)? {
        Some(rest) => {
            levels.here = Level::Items(0);
            Ok(rest)
        }
        None => pass_thing(levels, thing, bytes),
    }
}

// Goes on over what begins a thing, behind which others stand up to a break.
fn pass_thing<'a>(levels: &mut Levels, thing: Thing, bytes: &'a [u8]) -> Result<&'a [u8], Halt>
    requires { levels.old.here ≡ ToBreak thing }
    ensures step { let around = reverse levels.old.around.items in
        StepsTo (λ rest. rest.now) (skip_pair (skip_thing (skip_item (level_limit - length around)) thing) (skip_open (ToBreak thing ∷ around))) bytes.now (skip_open (levels_of levels.new)) result }
    ensures less { IfOk result (λ rest. 2 * length rest.now + length levels.new.around.items < 2 * length bytes.now + length levels.old.around.items) }
    ensures err { OnErr result (levels_of levels.new ≡ levels_of levels.old) }
{
    match thing {
        Thing::Item => pass_item(levels, Level::ToBreak(thing), bytes),
        Thing::Entry => pass_item(levels, Level::Value, bytes),
        Thing::ByteChunk => Ok(skip_chunk(2, bytes)?),
        Thing::TextChunk => Ok(skip_chunk(3, bytes)?),
    }
}

// Goes on over what begins an item, behind which `after` is still to come.
fn pass_item<'a>(levels: &mut Levels, after: Level, bytes: &'a [u8]) -> Result<&'a [u8], Halt>
    ensures step { let around = reverse levels.old.around.items in
        StepsTo (λ rest. rest.now) (skip_pair (skip_item (level_limit - length around)) (skip_open (after ∷ around))) bytes.now (skip_open (levels_of levels.new)) result }
    ensures less { IfOk result (λ rest. 2 * length rest.now + length levels.new.around.items < 2 * length bytes.now + length levels.old.around.items) }
    ensures err { OnErr result (levels_of levels.new ≡ levels_of levels.old) }
{
    let (inner, rest) = begin_item(bytes, levels.depth())?;
    levels.open(after, inner)?;
    Ok(rest)
}
