ghost use Rattle.std.specs.Prelude.{◌≡◌, ◌<◌, ◌≤◌, Some, Ok, Err, if◌then◌else◌, length, take, IfOk};
ghost use Rattle.std.specs.Io.KnownBytes.{IsAtEnd};
ghost use Rattle.io_edge.specs.Causes.{HasCause};
ghost use Rattle.io_edge.specs.Told.{Gives};
ghost use Rattle.io_edge.specs.Memory.{piece_size, after_piece};
ghost use Rattle.net_base.specs.Calls.{next_fails, after_call};

use crate::{Failed, Source, SureSource};
use net_base::{CallLog, NumberList, Octets};
use std::marker::Model;

/// Bytes in memory that are given at most a piece at a time, by calls of which some fail. Contracts see the bytes
/// left with the size of a piece, and the calls.
#[derive(Drop)]
pub struct MemSource {
    bytes: SureSource,
    calls: CallLog,
}

impl Model for MemSource {
    ghost use Rattle.io_edge.specs.Memory.{MemorySource};

    ghost Value = { MemorySource };

    ghost view = { λ s. record { pieces = s.bytes; calls = s.calls } };
}

impl MemSource {
    /// All the bytes are left and no call is made yet. Of the calls, counted from 1, those fail whose numbers are
    /// given.
    pub fn new(bytes: Octets, piece: usize, failing: NumberList) -> MemSource
        requires { 1 ≤ piece }
        ensures pieces { result.pieces ≡ record { left = bytes; piece = piece } }
        ensures calls { result.calls ≡ record { made = 0; failing = failing; faults = 0 } }
    {
        MemSource {
            bytes: SureSource::new(bytes, piece),
            calls: CallLog::new(failing),
        }
    }

    /// How many calls were made.
    pub fn calls(&self) -> u64
        ensures { result ≡ self.now.calls.made }
    {
        self.calls.made()
    }
}

impl Source for MemSource {
    ghost left = { λ s. Some s.pieces.left };

    ghost faults = { λ s. s.calls.faults };

    fn fill(&mut self, buf: &mut [u8]) -> Result<usize, Failed>
        ensures bytes { IfOk result (λ n. Gives (Some self.old.pieces.left) (Some self.new.pieces.left) (take n buf.new)) }
        ensures end { IfOk result (λ n. n ≡ 0 → 0 < length buf.new → IsAtEnd (Some self.new.pieces.left)) }
        ensures cause { HasCause self.old.calls.faults self.new.calls.faults result }
        ensures size { result ≡ (if next_fails self.old.calls then Err (record {}) else Ok (piece_size self.old.pieces (length buf.old))) }
        ensures pieces { self.new.pieces ≡ (if next_fails self.old.calls then self.old.pieces else after_piece self.old.pieces (length buf.old)) }
        ensures calls { self.new.calls ≡ after_call self.old.calls }
    {
        if self.calls.count_call() {
            return Err(Failed);
        }
        self.bytes.fill(buf)
    }
}
