ghost use Rattle.std.specs.Prelude.{◌≡◌, IfOk};
ghost use Rattle.trace_text.specs.Lines.{IsReading};
ghost use Rattle.local_clients.specs.Lines.{now_line, bytes_line, gone_line, alone, line_named, word_line, client_line, CanBeTaken};

use crate::ClientEvent;
use net_base::NUMBER_MOST;
use std::alloc::Global;
use trace_text::{LineRefusal, Words};

/// What a line says.
#[derive(Drop)]
pub(crate) enum ClientLine {
    Happen(ClientEvent),
    /// A line that begins with `> `: an action as it was printed. What it says is not read.
    Skipped,
    End,
}

/// What a line says, given without its line feed. A line may hold any bytes.
pub(crate) fn read_line(alloc: Global, line: &[u8]) -> Result<ClientLine, LineRefusal>
    ensures line { IsReading result (client_line line.now) }
    ensures can_be { IfOk result CanBeTaken }
{
    if line.starts_with(b"> ") {
        Ok(ClientLine::Skipped)
    } else {
        read_words(alloc, Words::of(line))
    }
}

fn read_words(alloc: Global, mut words: Words) -> Result<ClientLine, LineRefusal>
    ensures { IsReading result (word_line words.entry) }
{
    let name = words.word()?;
    read_named(alloc, name, words)
}

// What a line says behind its first word.
fn read_named(alloc: Global, name: &[u8], words: Words) -> Result<ClientLine, LineRefusal>
    ensures { IsReading result (line_named name.now words.entry) }
{
    if name == b"now".as_slice() {
        read_now(words)
    } else if name == b"joined".as_slice() {
        alone(ClientLine::Happen(ClientEvent::Joined), words)
    } else if name == b"bytes".as_slice() {
        read_bytes(alloc, words)
    } else if name == b"gone".as_slice() {
        read_gone(words)
    } else if name == b"end".as_slice() {
        alone(ClientLine::End, words)
    } else {
        Err(LineRefusal::BadWord(1))
    }
}

fn read_now(mut words: Words) -> Result<ClientLine, LineRefusal>
    ensures { result ≡ now_line words.entry }
{
    let moment = words.number(0, NUMBER_MOST)?;
    words.end()?;
    Ok(ClientLine::Happen(ClientEvent::Now(moment)))
}

fn read_bytes(alloc: Global, mut words: Words) -> Result<ClientLine, LineRefusal>
    ensures { IsReading result (bytes_line words.entry) }
{
    let id = words.number(0, NUMBER_MOST)?;
    let bytes = words.piece(alloc)?;
    words.end()?;
    Ok(ClientLine::Happen(ClientEvent::Bytes(id, bytes)))
}

fn read_gone(mut words: Words) -> Result<ClientLine, LineRefusal>
    ensures { result ≡ gone_line words.entry }
{
    let id = words.number(0, NUMBER_MOST)?;
    words.end()?;
    Ok(ClientLine::Happen(ClientEvent::Gone(id)))
}

// A line of one word.
fn alone(line: ClientLine, words: Words) -> Result<ClientLine, LineRefusal>
    ensures { result ≡ alone line words.entry }
{
    words.end()?;
    Ok(line)
}
