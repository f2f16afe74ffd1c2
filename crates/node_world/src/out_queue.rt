ghost use Rattle.std.specs.Prelude.{◌≡◌, ◌≤◌, [], ◌++◌, length, drop, OnOk, OnErr};

use bytes::BytesMut;
use net_base::OutOfMemory;
use std::alloc::Global;
use std::marker::Model;

/// The bytes that are to be sent on a socket, the first to go first. Contracts see the list of those that were put and
/// not sent yet.
#[derive(Drop)]
pub struct OutQueue {
    bytes: BytesMut,
}

impl Model for OutQueue {
    ghost use Rattle.std.specs.Prelude.{ℕ, List};

    ghost Value = { List ℕ };

    ghost view = { λ q. q.bytes.items };
}

impl OutQueue {
    /// Nothing is left to send. Takes no memory.
    pub fn new(alloc: Global) -> OutQueue
        ensures { result ≡ [] }
    {
        OutQueue {
            bytes: BytesMut::new(alloc),
        }
    }

    /// Puts bytes behind those that are left. A refusal changes nothing.
    pub fn put(&mut self, piece: &[u8]) -> Result<(), OutOfMemory>
        ensures ok { OnOk result (self.new ≡ self.old ++ piece.now) }
        ensures err { OnErr result (self.new ≡ self.old) }
    {
        self.bytes.extend_from_slice(piece)?;
        Ok(())
    }

    /// All that is left, to be sent from its front.
    pub fn front(&self) -> &[u8]
        ensures { result.now ≡ self.now }
    {
        self.bytes.as_slice()
    }

    /// Takes the first bytes away, which were sent.
    pub fn sent(&mut self, count: usize)
        requires { count ≤ length self.old }
        ensures { self.new ≡ drop count self.old }
    {
        self.bytes.advance(count);
    }
}
