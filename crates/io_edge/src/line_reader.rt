ghost use Rattle.std.specs.Prelude.{◌≡◌, ◌<◌, ◌≤◌, ◌+◌, ℕ, List, [], ◌∷◌, ◌++◌, length, drop, IfSome, IfOk, OnErr};
ghost use Rattle.std.specs.List.{position_or_len};
ghost use Rattle.io_edge.specs.Lines.{is_line_feed, FitsLine, IsPastLimit};
ghost use Rattle.io_edge.specs.Reading.{TakesLine, TakesKept, ReadsLine, AnswersInput, HasReadCause};

use crate::window::Window;
use crate::{Got, LineFault, Source};
use memchr::memchr;
use net_base::{Octets, OutOfMemory};
use std::alloc::Global;
use std::marker::Model;
use std::mem;

// How many bytes a line may have, without its line feed.
const LINE_LIMIT: usize = 140_000;

/// Reads lines, one at a time, and holds no more than one line and one reading of its source. Contracts see the
/// bytes that were taken from sources and not yet given away as lines.
#[derive(Drop)]
pub struct LineReader {
    alloc: Global,
    // The front of the next line.
    line: Vec<u8>,
    // What stands behind it.
    window: Window,
}

impl Model for LineReader {
    ghost use Rattle.std.specs.Prelude.{◌≤◌, ℕ, List, ◌++◌, length};
    ghost use Rattle.io_edge.specs.Lines.{FitsLine};

    ghost Value = { List ℕ };

    ghost view = { λ r. r.line.items ++ r.window };

    ghost invariant = { λ r. FitsLine r.line.items × (length r.window ≤ 65536) };
}

impl LineReader {
    /// Nothing is taken yet.
    pub fn new(alloc: Global) -> Result<LineReader, OutOfMemory>
        ensures { IfOk result (λ reader. reader ≡ []) }
    {
        let window = Window::new(alloc)?;
        Ok(LineReader {
            alloc,
            line: Vec::new(alloc),
            window,
        })
    }

    /// The next line, lent, where all of it came in one reading and is kept already.
    pub fn whole_line(&self) -> Option<&[u8]>
        ensures { IfSome result (λ line. FitsLine line.now × (self.now ≡ line.now ++ 10 ∷ drop (length line.now + 1) self.now)) }
    {
        if self.line.is_empty() {
            first_line(self.window.bytes())
        } else {
            None
        }
    }

    /// Gives up the first bytes that are kept.
    pub fn skip(&mut self, count: usize)
        requires { count ≤ length self.old }
        ensures { self.new ≡ drop count self.old }
    {
        give_up(&mut self.line, &mut self.window, count);
    }

    /// Puts the next line into a buffer, in place of what it held, where all of the line is kept already. False is where a
    /// source has to be asked, or the line is too long.
    pub fn kept_line(&mut self, line: &mut Vec<u8>) -> Result<bool, OutOfMemory>
        ensures answer { TakesKept self.old self.new line.new.items result }
    {
        take_kept(&mut self.line, &mut self.window, line)
    }

    /// The next line. A source that fails, or memory that is refused, costs no byte: the bytes taken so far are kept
    /// for the next call. A line that is too long is kept too, and answered again by every later call.
    pub fn next_line<S: Source>(&mut self, src: &mut S) -> Result<Got, LineFault>
        ensures answer { ReadsLine (S.left src.old) (S.left src.new) self.old self.new result }
        ensures input { IfSome (S.left src.old) (λ left. AnswersInput (self.old ++ left) result) }
        ensures cause { HasReadCause (S.faults src.old) (S.faults src.new) result }

        // The source is asked only where the bytes kept are the front of a line that may still be given.
        ensures asked { ¬ FitsLine self.old → src.new ≡ src.old }
        ensures stays { IsPastLimit self.old → (result ≡ Err LineFault.TooLong) × (self.new ≡ self.old) }

        // No more is kept than a line of 140,000 bytes and one reading of 65,536.
        ensures held { length self.new ≤ 205_536 }
    {
        find_line(self.alloc, &mut self.line, &mut self.window, src)
    }
}

// Takes the next line, and asks the source for more bytes until it is there.
fn find_line<S: Source>(
    alloc: Global,
    held: &mut Vec<u8>,
    window: &mut Window,
    src: &mut S,
) -> Result<Got, LineFault>
    requires front { FitsLine held.old.items }
    requires fits { length window.old ≤ 65536 }
    ensures front { FitsLine held.new.items }
    ensures fits { length window.new ≤ 65536 }
    ensures answer { ReadsLine (S.left src.old) (S.left src.new)
        (held.old.items ++ window.old) (held.new.items ++ window.new) result }
    ensures cause { HasReadCause (S.faults src.old) (S.faults src.new) result }
    ensures asked { ¬ FitsLine (held.old.items ++ window.old) → src.new ≡ src.old }
{
    'readings: loop {
        if let Some(line) = take_line(alloc, held, window)? {
            return Ok(Got::Line(line));
        }
        if window.refill(src)? == 0 {
            return Ok(Got::Over);
        }
    }
}

// Takes the next line out of a window, with the front of it that is held. Where it does not end there, all of the
// window is held.
fn take_line(
    alloc: Global,
    held: &mut Vec<u8>,
    window: &mut Window,
) -> Result<Option<Octets>, LineFault>
    requires { FitsLine held.old.items }
    ensures answer { TakesLine (held.old.items ++ window.old) held.new.items window.new result }
    ensures err { OnErr result ((held.new.items ≡ held.old.items) × (window.new ≡ window.old)) }
    ensures front { FitsLine held.new.items }
    ensures fits { length window.new ≤ length window.old }
{
    let ahead = window.bytes();
    let count = line_length(ahead);
    let is_ended = count < ahead.len();
    if held.len() + count > LINE_LIMIT {
        return Err(LineFault::TooLong);
    }
    held.extend_from_slice(&ahead[..count])?;
    window.consume(count);
    if !is_ended {
        return Ok(None);
    }
    window.consume(1);
    let line = mem::replace(held, Vec::new(alloc));
    Ok(Some(Octets::from_vec(line)))
}

// Takes the next line out of a window, with the front of it that is held, where it ends there.
fn take_kept(
    held: &mut Vec<u8>,
    window: &mut Window,
    line: &mut Vec<u8>,
) -> Result<bool, OutOfMemory>
    requires { FitsLine held.old.items }
    ensures answer { TakesKept (held.old.items ++ window.old) (held.new.items ++ window.new) line.new.items result }
    ensures front { FitsLine held.new.items }
    ensures fits { length window.new ≤ length window.old }
{
    let ahead = window.bytes();
    let count = line_length(ahead);
    if count == ahead.len() || held.len() + count > LINE_LIMIT {
        return Ok(false);
    }
    line.clear();
    line.extend_from_slice(held)?;
    line.extend_from_slice(&ahead[..count])?;
    held.clear();
    window.consume(count + 1);
    Ok(true)
}

// The first line of some bytes, where it ends there and is not too long.
fn first_line(bytes: &[u8]) -> Option<&[u8]>
    ensures { IfSome result (λ line. FitsLine line.now × (bytes.now ≡ line.now ++ 10 ∷ drop (length line.now + 1) bytes.now)) }
{
    let count = line_length(bytes);
    if count == bytes.len() || count > LINE_LIMIT {
        return None;
    }
    Some(&bytes[..count])
}

// Gives up the first of the bytes that are held and those ahead.
fn give_up(held: &mut Vec<u8>, window: &mut Window, count: usize)
    requires front { FitsLine held.old.items }
    requires count { count ≤ length (held.old.items ++ window.old) }
    ensures rest { held.new.items ++ window.new ≡ drop count (held.old.items ++ window.old) }
    ensures front { FitsLine held.new.items }
    ensures fits { length window.new ≤ length window.old }
{
    if held.is_empty() {
        window.consume(count);
    } else {
        give_up_held(held, window, count);
    }
}

// The same where some are held.
#[cold]
#[inline(never)]
fn give_up_held(held: &mut Vec<u8>, window: &mut Window, count: usize)
    requires front { FitsLine held.old.items }
    requires count { count ≤ length (held.old.items ++ window.old) }
    ensures rest { held.new.items ++ window.new ≡ drop count (held.old.items ++ window.old) }
    ensures front { FitsLine held.new.items }
    ensures fits { length window.new ≤ length window.old }
{
    let first = count.min(held.len());
    held.copy_within(first..held.len(), 0);
    held.truncate(held.len() - first);
    window.consume(count - first);
}

// How many bytes stand before the first line feed, or before the end where there is none.
pub(crate) fn line_length(bytes: &[u8]) -> usize
    ensures value { result ≡ position_or_len is_line_feed bytes.now }
    ensures bound { result ≤ length bytes.now }
{
    memchr(b'\n', bytes).unwrap_or(bytes.len())
}
