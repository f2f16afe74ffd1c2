ghost use Rattle.std.specs.Prelude.{◌≡◌, false, IfOk};
ghost use Rattle.trace_text.specs.Words.{words_of};
ghost use Rattle.pair_net.specs.Lines.{opening_line, info_line, last_end, end_step, deliver_step, alone, step_named, step_line, later_line};

use crate::words::{next_end, next_magic};
use crate::{End, PairStep};
use hs_message::VersionInfo;
use net_base::NUMBER_MOST;
use trace_text::{LineRefusal, Words};

/// What a line behind the head of a pair says.
#[derive(Clone, Copy, PartialEq, Eq)]
pub(crate) enum PairLine {
    Step(PairStep),
    /// A line that begins with `> `: a note as it was printed. What it says is not read.
    Skipped,
    End,
}

/// The first line.
pub(crate) fn read_opening(line: &[u8]) -> Result<(), LineRefusal>
    ensures { result ≡ opening_line (words_of line.now) }
{
    let mut words = Words::of(line);
    words.this("pair")?;
    words.this("1")?;
    words.end()
}

/// What an end of this name says of itself.
pub(crate) fn read_info(name: &str, line: &[u8]) -> Result<VersionInfo, LineRefusal>
    ensures info { result ≡ info_line name.now (words_of line.now) }
    ensures offers { IfOk result (λ info. info.query ≡ false) }
{
    let mut words = Words::of(line);
    words.this(name)?;
    let magic = next_magic(&mut words)?;
    let initiator_only = words.number(0, 1)?;
    let sharing = words.number(0, 1)?;
    words.end()?;
    Ok(VersionInfo {
        magic,
        initiator_only: initiator_only == 1,
        sharing: sharing == 1,
        query: false,
    })
}

/// What a line behind the head says, given without its line feed. A line may hold any bytes.
pub(crate) fn read_later(line: &[u8]) -> Result<PairLine, LineRefusal>
    ensures { result ≡ later_line line.now }
{
    if line.starts_with(b"> ") {
        Ok(PairLine::Skipped)
    } else {
        read_step(Words::of(line))
    }
}

fn read_step(mut words: Words) -> Result<PairLine, LineRefusal>
    ensures { result ≡ step_line words.entry }
{
    let place = words.place();
    let word = words.word()?;
    read_named(place, word, words)
}

// A step of this name, which stands at a place.
fn read_named(place: u64, word: &[u8], words: Words) -> Result<PairLine, LineRefusal>
    ensures { result ≡ step_named place word.now words.entry }
{
    if word == b"meet".as_slice() {
        read_meeting(words)
    } else if word == b"cross".as_slice() {
        alone(PairLine::Step(PairStep::Cross), words)
    } else if word == b"deliver".as_slice() {
        read_delivery(words)
    } else if word == b"timeout".as_slice() {
        read_timeout(words)
    } else if word == b"close".as_slice() {
        read_closing(words)
    } else if word == b"end".as_slice() {
        alone(PairLine::End, words)
    } else {
        Err(LineRefusal::BadWord(place))
    }
}

fn read_meeting(words: Words) -> Result<PairLine, LineRefusal>
    ensures { result ≡ end_step PairStep.Meet words.entry }
{
    let end = last_end(words)?;
    Ok(PairLine::Step(PairStep::Meet(end)))
}

fn read_timeout(words: Words) -> Result<PairLine, LineRefusal>
    ensures { result ≡ end_step PairStep.Timeout words.entry }
{
    let end = last_end(words)?;
    Ok(PairLine::Step(PairStep::Timeout(end)))
}

fn read_closing(words: Words) -> Result<PairLine, LineRefusal>
    ensures { result ≡ end_step PairStep.Close words.entry }
{
    let end = last_end(words)?;
    Ok(PairLine::Step(PairStep::Close(end)))
}

fn last_end(mut words: Words) -> Result<End, LineRefusal>
    ensures { result ≡ last_end words.entry }
{
    let end = next_end(&mut words)?;
    words.end()?;
    Ok(end)
}

fn read_delivery(mut words: Words) -> Result<PairLine, LineRefusal>
    ensures { result ≡ deliver_step words.entry }
{
    let end = next_end(&mut words)?;
    let count = words.number(1, NUMBER_MOST)?;
    words.end()?;
    Ok(PairLine::Step(PairStep::Deliver(end, count)))
}

// A line of one word.
fn alone(line: PairLine, words: Words) -> Result<PairLine, LineRefusal>
    ensures { result ≡ alone line words.entry }
{
    words.end()?;
    Ok(line)
}
