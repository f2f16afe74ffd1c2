ghost use Rattle.std.specs.Prelude.{◌≡◌, ◌<◌, ◌≤◌, Some, [], IfOk};
ghost use Rattle.io_edge.specs.Causes.{HasCause};
ghost use Rattle.io_edge.specs.Memory.{answer_to, after_put};

use crate::{Failed, Sink};
use net_base::{CallLog, NumberList, OutOfMemory};
use std::alloc::Global;
use std::marker::Model;

/// A room in memory that is filled, by calls of which some fail. Where it is full, a call that brings a byte fails
/// too. Contracts see the bytes taken, the size of the room and the calls.
#[derive(Drop)]
pub struct MemSink {
    bytes: Vec<u8>,
    room: usize,
    calls: CallLog,
}

impl Model for MemSink {
    ghost use Rattle.std.specs.Prelude.{◌≤◌};
    ghost use Rattle.std.specs.Vec.{vec_len, vec_capacity};
    ghost use Rattle.io_edge.specs.Memory.{MemorySink};

    ghost Value = { MemorySink };

    ghost view = { λ s. record { taken = s.bytes.items; room = s.room; calls = s.calls } };

    ghost invariant = { λ s. (vec_len s.bytes ≤ s.room) × (s.room ≤ vec_capacity s.bytes) };
}

impl MemSink {
    /// Takes all the memory that the room needs. Nothing is in it and no call is made yet. Of the calls, counted
    /// from 1, those fail whose numbers are given.
    pub fn new(alloc: Global, room: usize, failing: NumberList) -> Result<MemSink, OutOfMemory>
        ensures taken { IfOk result (λ sink. sink.taken ≡ []) }
        ensures room { IfOk result (λ sink. sink.room ≡ room) }
        ensures calls { IfOk result (λ sink. sink.calls ≡ record { made = 0; failing = failing; faults = 0 }) }
    {
        let bytes = Vec::with_capacity(alloc, room)?;
        Ok(MemSink {
            bytes,
            room,
            calls: CallLog::new(failing),
        })
    }

    /// The bytes taken.
    pub fn bytes(&self) -> &[u8]
        ensures { result.now ≡ self.now.taken }
    {
        &self.bytes
    }
}

impl Sink for MemSink {
    ghost taken = { λ s. Some s.taken };

    ghost faults = { λ s. s.calls.faults };

    fn put(&mut self, piece: &[u8]) -> Result<usize, Failed>
        ensures cause { HasCause self.old.calls.faults self.new.calls.faults result }
        ensures answer { result ≡ answer_to self.old piece.now }
        ensures after { self.new ≡ after_put self.old piece.now }
    {
        if self.calls.count_call() {
            return Err(Failed);
        }
        let free = self.room - self.bytes.len();
        if free == 0 && !piece.is_empty() {
            self.calls.count_fault();
            return Err(Failed);
        }
        let count = piece.len().min(free);
        self.bytes.extend_from_slice(&piece[..count]).unwrap();
        Ok(count)
    }
}
