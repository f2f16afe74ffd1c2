ghost use Rattle.std.specs.Prelude.{◌≡◌, ◌<◌, ◌≤◌, [], ◌∷◌, ◌++◌, nat_le, length, take, drop, Some, None, MatchOption, MatchBool, IfOk, OnOk, OnErr};
ghost use Rattle.io_edge.specs.Causes.{HasCause};
ghost use Rattle.io_edge.specs.Lines.{HasNoLineFeed};
ghost use Rattle.io_edge.specs.Pending.{front_line};
ghost use Rattle.io_edge.specs.Told.{TakesFront};

use crate::line_reader::line_length;
use crate::sink::put_from;
use crate::{Failed, Printed, Sink};
use net_base::OutOfMemory;
use std::alloc::Global;
use std::marker::Model;

// How many bytes make a piece.
const PIECE: usize = 65_536;

/// Collects lines, and puts them to a sink in pieces, so that many lines cost one call. Contracts see the bytes that are
/// pending: those collected and not yet put.
#[derive(Drop)]
pub struct PieceWriter {
    bytes: Vec<u8>,
    // How many of them were put.
    done: usize,
}

impl Model for PieceWriter {
    ghost use Rattle.std.specs.Prelude.{◌≤◌, ℕ, List, length, drop};

    ghost Value = { List ℕ };

    ghost view = { λ w. drop w.done w.bytes.items };

    ghost invariant = { λ w. w.done ≤ length w.bytes.items };
}

impl PieceWriter {
    /// Nothing is pending. Takes the memory of a piece; a line that goes beyond it takes more.
    pub fn new(alloc: Global) -> Result<PieceWriter, OutOfMemory>
        ensures { IfOk result (λ writer. writer ≡ []) }
    {
        let bytes = Vec::with_capacity(alloc, PIECE)?;
        Ok(PieceWriter { bytes, done: 0 })
    }

    /// How many bytes are pending.
    pub fn len(&self) -> usize
        ensures { result ≡ length self.now }
    {
        self.bytes.len() - self.done
    }

    /// Whether a piece is pending.
    pub fn is_full(&self) -> bool
        ensures { result ≡ nat_le 65_536 (length self.now) }
    {
        self.len() >= PIECE
    }

    /// Collects a line, given without its line feed.
    pub fn push_line(&mut self, line: &[u8]) -> Result<(), OutOfMemory>
        ensures ok { OnOk result (self.new ≡ self.old ++ (line.now ++ 10 ∷ [])) }
        ensures err { OnErr result (self.new ≡ self.old) }
    {
        push_ended(&mut self.bytes, line)
    }

    /// Collects the line that is printed of an item.
    pub fn push_printed<T: Printed>(&mut self, alloc: Global, item: &T) -> Result<(), OutOfMemory>
        ensures ok { OnOk result (self.new ≡ self.old ++ (T.text item.now ++ 10 ∷ [])) }
        ensures err { OnErr result (self.new ≡ self.old) }
    {
        let before = self.bytes.len();
        let pushed = print_ended(alloc, item, &mut self.bytes);
        if pushed.is_err() {
            self.bytes.truncate(before);
        }
        pushed
    }

    /// Gives up all that is pending but the first bytes.
    pub fn truncate(&mut self, count: usize)
        requires { count ≤ length self.old }
        ensures { self.new ≡ take count self.old }
    {
        self.bytes.truncate(self.done + count);
    }

    /// The first line that is pending, without its line feed.
    pub fn first_line(&self) -> Option<&[u8]>
        ensures { MatchOption result (front_line self.now ≡ None) (λ line. front_line self.now ≡ Some line.now) }
    {
        let pending = self.pending();
        if pending.is_empty() {
            return None;
        }
        Some(&pending[..line_length(pending)])
    }

    /// Whether a line, which has no line feed in it, is the first one that is pending.
    pub fn first_line_is(&self, line: &[u8]) -> bool
        requires { HasNoLineFeed line.now }
        ensures { MatchBool result (front_line self.now ≡ Some line.now) (¬ (front_line self.now ≡ Some line.now)) }
    {
        let pending = self.pending();
        if pending.len() < line.len() {
            return false;
        }
        let (front, rest) = pending.split_at(line.len());
        match rest.first() {
            Some(next) => *next == b'\n' && front == line,
            None => !front.is_empty() && front == line,
        }
    }

    /// Gives up the first bytes that are pending, or all where there are no more.
    pub fn skip(&mut self, count: usize)
        ensures { self.new ≡ drop count self.old }
    {
        self.done += count.min(self.len());
        if self.done == self.bytes.len() {
            self.clear();
        }
    }

    /// Puts all that is pending, by as many calls as that needs. After a fault the rest is pending still.
    pub fn put<K: Sink>(&mut self, sink: &mut K) -> Result<(), Failed>
        ensures front { TakesFront (K.taken sink.old) (K.taken sink.new) self.old self.new }
        ensures whole { OnOk result (self.new ≡ []) }
        ensures part { OnErr result (0 < length self.new) }
        ensures cause { HasCause (K.faults sink.old) (K.faults sink.new) result }
    {
        put_from(&mut self.done, &self.bytes, sink)?;
        self.clear();
        Ok(())
    }

    fn pending(&self) -> &[u8]
        ensures { result.now ≡ self.now }
    {
        &self.bytes[self.done..]
    }

    // Gives up all that is pending.
    fn clear(&mut self)
        ensures { self.new ≡ [] }
    {
        self.bytes.clear();
        self.done = 0;
    }
}

// A line with its line feed.
fn push_ended(bytes: &mut Vec<u8>, line: &[u8]) -> Result<(), OutOfMemory>
    ensures ok { OnOk result (bytes.new.items ≡ bytes.old.items ++ (line.now ++ 10 ∷ [])) }
    ensures err { OnErr result (bytes.new.items ≡ bytes.old.items) }
{
    bytes.reserve(line.len() + 1)?;
    bytes.extend_from_slice(line).unwrap();
    bytes.push(b'\n').unwrap();
    Ok(())
}

// The line that is printed of an item, with its line feed. A part of it may come where memory is wanting.
fn print_ended<T: Printed>(alloc: Global, item: &T, bytes: &mut Vec<u8>) -> Result<(), OutOfMemory>
    ensures ok { OnOk result (bytes.new.items ≡ bytes.old.items ++ (T.text item.now ++ 10 ∷ [])) }
    ensures more { length bytes.old.items ≤ length bytes.new.items }
    ensures front { take (length bytes.old.items) bytes.new.items ≡ bytes.old.items }
{
    item.print(alloc, bytes)?;
    bytes.push(b'\n')?;
    Ok(())
}
