ghost use Rattle.std.specs.Prelude.{◌≡◌};
ghost use Rattle.trace_text.specs.Events.{now_line, govern_line, accepted_line, dialed_line, bytes_line, closed_line, targets_line, big_targets_line, locals_line, roots_line, roots_found, roots_failed, bigs_line, big_line, provided_line, event_line, in_bounds};
ghost use Rattle.trace_text.specs.Lines.{IsReading};

use crate::words::Words;
use crate::{Line, LineRefusal};
use net_base::{
    BigTargets, Cid, Event, Field, INTERVAL_MOST, Job, NUMBER_MOST, RootAnswer, Targets,
};
use std::alloc::Global;

/// What an event line says behind its first word, which names the event.
pub fn read_event(
    alloc: Global,
    version: u64,
    name: &[u8],
    words: Words,
) -> Result<Line, LineRefusal>
    ensures { IsReading result (event_line version name.now words.entry) }
{
    if name == b"now".as_slice() {
        read_now(words)
    } else if name == b"govern".as_slice() {
        read_govern(words)
    } else if name == b"accepted".as_slice() {
        read_accepted(version, words)
    } else if name == b"dialed".as_slice() {
        read_dialed(words)
    } else if name == b"bytes".as_slice() {
        read_bytes(alloc, words)
    } else if name == b"closed".as_slice() {
        read_closed(words)
    } else {
        read_provided(alloc, version, name, words)
    }
}

fn read_provided(
    alloc: Global,
    version: u64,
    name: &[u8],
    words: Words,
) -> Result<Line, LineRefusal>
    ensures { IsReading result (provided_line version name.now words.entry) }
{
    if name == b"targets".as_slice() {
        read_targets(words)
    } else if name == b"locals".as_slice() {
        read_locals(alloc, version, words)
    } else if name == b"roots".as_slice() {
        read_roots(alloc, version, words)
    } else {
        read_big(alloc, version, name, words)
    }
}

fn read_big(alloc: Global, version: u64, name: &[u8], words: Words) -> Result<Line, LineRefusal>
    ensures { IsReading result (big_line version name.now words.entry) }
{
    if version == 2 && name == b"bigtargets".as_slice() {
        read_big_targets(words)
    } else if version == 2 && name == b"bigs".as_slice() {
        read_bigs(alloc, version, words)
    } else {
        Err(LineRefusal::BadWord(1))
    }
}

fn read_now(mut words: Words) -> Result<Line, LineRefusal>
    ensures { result ≡ now_line words.entry }
{
    let moment = words.number(0, NUMBER_MOST)?;
    words.end()?;
    Ok(Line::Happen(Event::Now(moment)))
}

fn read_govern(mut words: Words) -> Result<Line, LineRefusal>
    ensures { result ≡ govern_line words.entry }
{
    let word = words.number(0, u64::MAX)?;
    words.end()?;
    Ok(Line::Happen(Event::Govern(word)))
}

fn read_accepted(version: u64, mut words: Words) -> Result<Line, LineRefusal>
    ensures { result ≡ accepted_line version words.entry }
{
    let address = words.address(version)?;
    words.end()?;
    Ok(Line::Happen(Event::Accepted(address)))
}

fn read_dialed(mut words: Words) -> Result<Line, LineRefusal>
    ensures { result ≡ dialed_line words.entry }
{
    let cid = Cid(words.number(0, NUMBER_MOST)?);
    let opened = words.outcome()?;
    words.end()?;
    Ok(Line::Happen(Event::Dialed(cid, opened)))
}

fn read_bytes(alloc: Global, mut words: Words) -> Result<Line, LineRefusal>
    ensures { IsReading result (bytes_line words.entry) }
{
    let cid = Cid(words.number(0, NUMBER_MOST)?);
    let bytes = words.piece(alloc)?;
    words.end()?;
    Ok(Line::Happen(Event::Bytes(cid, bytes)))
}

fn read_closed(mut words: Words) -> Result<Line, LineRefusal>
    ensures { result ≡ closed_line words.entry }
{
    let cid = Cid(words.number(0, NUMBER_MOST)?);
    words.end()?;
    Ok(Line::Happen(Event::Closed(cid)))
}

fn read_targets(mut words: Words) -> Result<Line, LineRefusal>
    ensures { result ≡ targets_line words.entry }
{
    let targets = Targets {
        root: words.number(0, NUMBER_MOST)?,
        known: words.number(0, NUMBER_MOST)?,
        established: words.number(0, NUMBER_MOST)?,
        active: words.number(0, NUMBER_MOST)?,
    };
    in_bounds(targets.check())?;
    words.end()?;
    Ok(Line::Happen(Event::Aims(targets)))
}

fn read_big_targets(mut words: Words) -> Result<Line, LineRefusal>
    ensures { result ≡ big_targets_line words.entry }
{
    let big_targets = BigTargets {
        known: words.number(0, NUMBER_MOST)?,
        established: words.number(0, NUMBER_MOST)?,
        active: words.number(0, NUMBER_MOST)?,
    };
    in_bounds(big_targets.check())?;
    words.end()?;
    Ok(Line::Happen(Event::BigAims(big_targets)))
}

// No bound is broken.
fn in_bounds(fault: Option<Field>) -> Result<(), LineRefusal>
    ensures { result ≡ in_bounds fault }
{
    match fault {
        None => Ok(()),
        Some(_) => Err(LineRefusal::BadTargets),
    }
}

fn read_locals(alloc: Global, version: u64, mut words: Words) -> Result<Line, LineRefusal>
    ensures { IsReading result (locals_line version words.entry) }
{
    let groups = words.groups(alloc, version)?;
    Ok(Line::Happen(Event::Locals(groups)))
}

fn read_roots(alloc: Global, version: u64, mut words: Words) -> Result<Line, LineRefusal>
    ensures { IsReading result (roots_line version words.entry) }
{
    let job = Job(words.number(0, NUMBER_MOST)?);
    if words.outcome()? {
        read_found(alloc, version, job, words)
    } else {
        read_failed(job, words)
    }
}

fn read_found(alloc: Global, version: u64, job: Job, mut words: Words) -> Result<Line, LineRefusal>
    ensures { IsReading result (roots_found version job.0 words.entry) }
{
    let ttl = words.number(1, INTERVAL_MOST)?;
    let addresses = words.addresses(alloc, version)?;
    words.end()?;
    let answer = RootAnswer::Found(ttl, addresses);
    Ok(Line::Happen(Event::Roots(job, answer)))
}

fn read_failed(job: Job, words: Words) -> Result<Line, LineRefusal>
    ensures { result ≡ roots_failed job.0 words.entry }
{
    words.end()?;
    Ok(Line::Happen(Event::Roots(job, RootAnswer::Failed)))
}

fn read_bigs(alloc: Global, version: u64, mut words: Words) -> Result<Line, LineRefusal>
    ensures { IsReading result (bigs_line version words.entry) }
{
    let addresses = words.addresses(alloc, version)?;
    words.end()?;
    Ok(Line::Happen(Event::Bigs(addresses)))
}
