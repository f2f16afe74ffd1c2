ghost use Rattle.std.specs.Prelude.{◌≡◌, ◌+◌, ◌<◌, ◌≤◌, ℕ, List, [], length, take, drop, IfOk, OnOk, OnErr};
ghost use Rattle.std.specs.Io.KnownBytes.{IsAtEnd};
ghost use Rattle.io_edge.specs.Causes.{HasCause};
ghost use Rattle.io_edge.specs.Told.{Gives};

use crate::{Failed, Source};
use net_base::OutOfMemory;
use std::alloc::Global;
use std::marker::Model;

// How many bytes one call on a source may bring.
const SIZE: usize = 65_536;

// Bytes that a source gave, of which the first ones may be taken away.
#[derive(Drop)]
pub(crate) struct Window {
    bytes: Vec<u8>,
    start: usize,
    end: usize,
}

impl Model for Window {
    ghost use Rattle.std.specs.Prelude.{◌≡◌, ◌≤◌, ℕ, List, length, take, drop};

    ghost Value = { List ℕ };

    ghost view = { λ w. drop w.start (take w.end w.bytes.items) };

    ghost invariant = { λ w. (w.start ≤ w.end) × (w.end ≤ 65536) × (length w.bytes.items ≡ 65536) };
}

impl Window {
    pub(crate) fn new(alloc: Global) -> Result<Window, OutOfMemory>
        ensures { IfOk result (λ window. window ≡ []) }
    {
        let bytes = vec![in alloc; 0; SIZE]?;
        Ok(Window {
            bytes,
            start: 0,
            end: 0,
        })
    }

    pub(crate) fn bytes(&self) -> &[u8]
        ensures value { result.now ≡ self.now }
        ensures fits { length result.now ≤ 65536 }
    {
        &self.bytes[self.start..self.end]
    }

    pub(crate) fn consume(&mut self, count: usize)
        requires { count ≤ length self.old }
        ensures rest { self.new ≡ drop count self.old }
        ensures len { length self.new + count ≡ length self.old }
    {
        self.start += count;
    }

    // Asks an empty window's source for more bytes, once.
    pub(crate) fn refill<S: Source>(&mut self, src: &mut S) -> Result<usize, Failed>
        requires { self.old ≡ [] }
        ensures count { IfOk result (λ n. length self.new ≡ n) }
        ensures fits { length self.new ≤ 65536 }
        ensures bytes { OnOk result (Gives (S.left src.old) (S.left src.new) self.new) }
        ensures end { IfOk result (λ n. n ≡ 0 → IsAtEnd (S.left src.new)) }
        ensures untouched { OnErr result (S.left src.new ≡ S.left src.old) }
        ensures empty { OnErr result (self.new ≡ []) }
        ensures cause { HasCause (S.faults src.old) (S.faults src.new) result }
    {
        self.start = 0;
        self.end = 0;
        self.end = src.fill(&mut self.bytes)?;
        Ok(self.end)
    }
}
