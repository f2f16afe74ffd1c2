ghost use Rattle.std.specs.Prelude.{◌≡◌};
ghost use Rattle.trace_text.specs.Lines.{first_line, second_line, set_line, setting_line, end_line, later_line, line_of, IsReading};

use crate::event::read_event;
use crate::setting::Found;
use crate::words::Words;
use crate::{HeadLine, Line, LineRefusal, Stage};
use std::alloc::Global;

/// What a line says, given without its line feed. A line may hold any bytes.
///
/// The first word from the left that is wrong decides over the refusal. A missing word has the place after the
/// last one.
pub fn read_line(alloc: Global, stage: &Stage, line: &[u8]) -> Result<Line, LineRefusal>
    ensures { IsReading result (line_of stage.now line.now) }
{
    match stage.seen {
        0 => read_first(Words::of(line)),
        1 => read_second(stage.version, Words::of(line)),
        _ if line.starts_with(b"> ") => Ok(Line::Acted),
        _ => read_later(alloc, stage, Words::of(line)),
    }
}

fn read_first(mut words: Words) -> Result<Line, LineRefusal>
    ensures { result ≡ first_line words.entry }
{
    words.this("trace")?;
    let version = words.version()?;
    words.end()?;
    Ok(Line::Head(HeadLine::Trace(version)))
}

fn read_second(version: u64, mut words: Words) -> Result<Line, LineRefusal>
    ensures { result ≡ second_line version words.entry }
{
    words.this("own")?;
    let address = words.address(version)?;
    words.end()?;
    Ok(Line::Head(HeadLine::Own(address)))
}

fn read_later(alloc: Global, stage: &Stage, mut words: Words) -> Result<Line, LineRefusal>
    ensures { IsReading result (later_line stage.now words.entry) }
{
    let word = words.word()?;
    if word == b"set".as_slice() {
        read_set(stage, words)
    } else if word == b"end".as_slice() {
        read_end(words)
    } else {
        read_event(alloc, stage.version, word, words)
    }
}

// What follows `set`.
fn read_set(stage: &Stage, mut words: Words) -> Result<Line, LineRefusal>
    ensures { result ≡ set_line stage.now words.entry }
{
    if stage.events {
        return Err(LineRefusal::OutOfOrder);
    }
    let found = words.setting(stage.hard)?;
    if found.place <= stage.last {
        return Err(LineRefusal::OutOfOrder);
    }
    read_setting(found, words)
}

fn read_setting(found: Found, mut words: Words) -> Result<Line, LineRefusal>
    ensures { result ≡ setting_line found.place found.row.least found.row.most words.entry }
{
    let value = words.number(found.row.least, found.row.most)?;
    words.end()?;
    Ok(Line::Head(HeadLine::Set(found.place, value)))
}

fn read_end(words: Words) -> Result<Line, LineRefusal>
    ensures { result ≡ end_line words.entry }
{
    words.end()?;
    Ok(Line::End)
}
