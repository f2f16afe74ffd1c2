ghost use Rattle.std.specs.Prelude.{◌≡◌, ◌+◌, ◌-◌, min, true, false, nat_lt, ◌&&◌, length, [], ◌++◌, drop, Some, IfOk, OnOk, OnErr};
ghost use Rattle.socket_flow.specs.declared.socket.Stage.TheVariants.{Announcing};
ghost use Rattle.socket_flow.specs.Stages.{heard_by, more_said, unheard};
ghost use Rattle.socket_flow.specs.Rounds.{is_behind};
ghost use Rattle.socket_flow.specs.Table.{is_linked};

use crate::announcement::{Heard, announced_size, read_announcement};
use crate::id::Id;
use crate::limits::{UNSENT_EACH, UNSENT_SOME};
use net_base::{Addr, Octets, OutOfMemory};
use node_world::OutQueue;
use std::alloc::Global;

/// What a socket is for.
#[derive(Drop)]
pub(crate) enum Stage {
    /// This node dials.
    Dialing(Id),
    /// A peer has connected and is to announce its address. It said this much of it.
    Announcing(Octets),
    /// A peer has connected, of which the node is still to be told.
    Waiting(Addr),
    /// The node was told, and has not said yet whether it admits the peer.
    Told,
    Open(Id),
    /// The node has closed the connection. What waits is written as far as the socket takes it at once.
    Closing,
}

/// One socket, as far as it is known.
#[derive(Drop)]
pub(crate) struct Socket {
    pub(crate) stage: Stage,
    pub(crate) out: OutQueue,
    /// It takes no more bytes, until the system says that it may.
    pub(crate) is_blocked: bool,
    /// It may have bytes, and is not read while so much waits to be sent on it.
    pub(crate) is_held: bool,
    /// It is looked at whether its peer takes what waits.
    pub(crate) is_watched: bool,
    /// The peer took something since it was looked at.
    pub(crate) has_taken: bool,
}

impl Socket {
    pub(crate) fn new(stage: Stage, out: OutQueue) -> Socket
        ensures { result ≡ record { stage = stage; out = out; is_blocked = false; is_held = false; is_watched = false; has_taken = false } }
    {
        Socket {
            stage,
            out,
            is_blocked: false,
            is_held: false,
            is_watched: false,
            has_taken: false,
        }
    }

    /// How many bytes wait to be sent.
    pub(crate) fn unsent(&self) -> usize
        ensures { result ≡ length self.now.out }
    {
        self.out.front().len()
    }

    /// It is a connection, or is to be one.
    pub(crate) fn is_linked(&self) -> bool
        ensures { result ≡ is_linked (Some self.now.stage) }
    {
        matches!(self.stage, Stage::Dialing(_) | Stage::Open(_))
    }

    /// So much waits to be sent that nothing is to be read, where so much waits on all sockets.
    pub(crate) fn is_behind(&self, unsent: usize) -> bool
        ensures { result ≡ is_behind self.now.out unsent }
    {
        let own = self.unsent();
        own > UNSENT_EACH || (unsent > UNSENT_SOME && 0 < own)
    }

    /// So many of the bytes that wait went out, or all. Answers how many.
    pub(crate) fn went(&mut self, count: usize) -> usize
        ensures count { result ≡ min count (length self.old.out) }
        ensures after { self.new ≡ record self.old { out = drop (min count (length self.old.out)) self.old.out; has_taken = true } }
    {
        let count = count.min(self.unsent());
        self.out.sent(count);
        self.has_taken = true;
        count
    }

    /// How many bytes of the announcement are still to come, as far as is known.
    pub(crate) fn unheard(&self) -> usize
        ensures { result ≡ unheard self.now.stage }
    {
        let Stage::Announcing(said) = &self.stage else {
            return 0;
        };
        match announced_size(said.as_slice()) {
            Some(size) => size.saturating_sub(said.as_slice().len()),
            None => 0,
        }
    }

    /// Hears on in the announcement. None is where it announces none.
    pub(crate) fn hear(&mut self, bytes: &[u8]) -> Result<Option<Heard>, OutOfMemory>
        ensures heard { IfOk result (λ heard. heard ≡ heard_by self.old.stage bytes.now) }
        ensures after { OnOk result (self.new ≡ record self.old { stage = more_said self.old.stage bytes.now }) }
        ensures err { OnErr result (self.new ≡ self.old) }
    {
        let Stage::Announcing(said) = &mut self.stage else {
            return Ok(None);
        };
        said.extend_from_slice(bytes)?;
        Ok(Some(read_announcement(said.as_slice())))
    }
}

/// A peer that has connected, and has said nothing.
pub(crate) fn stranger(alloc: Global) -> Socket
    ensures { result ≡ record { stage = Announcing []; out = []; is_blocked = false; is_held = false; is_watched = false; has_taken = false } }
{
    Socket::new(Stage::Announcing(Octets::new(alloc)), OutQueue::new(alloc))
}
