//! What happens on the sockets.
ghost use Rattle.std.specs.Prelude.{◌≡◌, ◌++◌, [], ◌∷◌, ℕ, true, false, eqb, Some, None, IsSome, IfOk, OnOk, IfSome};
ghost use Rattle.net_base.specs.Limits.{IsPiece, IsWithinLimits};
ghost use Rattle.net_base.specs.declared.event.Event.TheVariants.{Dialed as Told};
ghost use Rattle.socket_flow.specs.declared.socket.Stage.TheVariants.{Open};
ghost use Rattle.socket_flow.specs.Moments.{moments_told};
ghost use Rattle.socket_flow.specs.Writing.{went_of};
ghost use Rattle.socket_flow.specs.Table.{socket_at, out_at, stage_at, is_announcing, KeepsTalk, NamesSame, Puts};
ghost use Rattle.socket_flow.specs.Rounds.{MayQueue};
ghost use Rattle.socket_flow.specs.Histories.{Makes, Queues, PeerWaits, NobodyWaits, PeerIsGone, HasNoRoom, HasNoRoomToDial, MayBeReady, RoundBegins, PeerCame, DialCameTo, BytesCame, BytesWent, TakesNoMore, HasEnded};
ghost use Rattle.socket_flow.specs.Talk.{KeepsAll, KeepsSockets, KeepsRest, MayLose, TakesIn, Connects};
ghost use Rattle.socket_flow.specs.Flow.{endings, told_of, after_bytes, waits_with, after_going, after_full, dial_events, after_dial, newcomer};

use crate::announcement::Heard;
use crate::ask::Dialed;
use crate::flow::{SocketFlow, is_dialing};
use crate::id::Id;
use crate::socket::{Socket, Stage, stranger};
use crate::turn_queue::TurnQueue;
use net_base::{Addr, Event, Octets, OutOfMemory};
use node_world::OutQueue;

// A key whose time is over.
#[derive(Clone, Copy)]
enum Late {
    Announcing(usize),
    Dialing(usize),
    Watched(usize),
}

impl SocketFlow {
    /// Somebody may wait to be accepted.
    pub fn peer_waits(&mut self)
        ensures made { Makes PeerWaits self.old self.new }
        ensures turns { Queues PeerWaits self.old self.new }
    {
        self.door.call();
    }

    /// A socket may be ready for something, for bytes to be written if that is told.
    pub fn may_be_ready(&mut self, key: usize, writable: bool) -> Result<(), OutOfMemory>
        ensures talk { KeepsTalk self.old.table self.new.table }
        ensures events { self.new.events ≡ self.old.events }
        ensures made { Makes (MayBeReady key writable) self.old self.new }
        ensures turns { OnOk result (Queues (MayBeReady key writable) self.old self.new) }
    {
        let Some(socket) = self.table.sockets.get_mut(&key) else {
            return Ok(());
        };
        match socket.stage {
            Stage::Dialing(_) | Stage::Announcing(_) => return self.fresh.push(key),
            Stage::Waiting(_) | Stage::Told | Stage::Closing => return Ok(()),
            Stage::Open(_) => {}
        }
        if !writable {
            return self.turns.push(key);
        }
        socket.is_blocked = false;
        self.queue_write(key)?;
        self.turns.push(key)
    }

    /// The sockets have told what they are ready for, and it is this moment: a round begins.
    pub fn begin_round(&mut self, moment: u64) -> Result<(), OutOfMemory>
        ensures made { OnOk result (Makes (RoundBegins moment) self.old self.new) }
        ensures turns { OnOk result (Queues (RoundBegins moment) self.old self.new) }
    {
        self.reach(moment)?;
        self.door.begin_round();
        self.left = self.turns.len();
        self.lose_late()?;
        Ok(())
    }

    // It is this moment, which is told where it is later than the last.
    fn reach(&mut self, moment: u64) -> Result<(), OutOfMemory>
        ensures sockets { KeepsSockets self.old self.new }
        ensures events { OnOk result (self.new.events ≡ self.old.events ++ moments_told self.old.moments moment) }
        ensures turns { self.new.turns ≡ self.old.turns }
    {
        self.moments.reach(moment);
        if self.moments.take_news() {
            self.events.push(Event::Now(self.moments.moment()))?;
        }
        Ok(())
    }

    // Ends the sockets whose time is over.
    fn lose_late(&mut self) -> Result<(), OutOfMemory>
        ensures loses { OnOk result (MayLose self.old self.new) }
        ensures turns { self.new.turns ≡ self.old.turns }
    {
        for _ in 0..u64::MAX {
            let Some(late) = self.next_late() else {
                break;
            };
            self.end_late(late)?;
        }
        Ok(())
    }

    // The next whose time is over, those that announce their address first and those that are looked at last.
    fn next_late(&mut self) -> Option<Late>
        ensures keeps { KeepsAll self.old self.new }
        ensures turns { self.new.turns ≡ self.old.turns }
    {
        let moment = self.moments.moment();
        if let Some(key) = self.announcing.pop_due(moment) {
            return Some(Late::Announcing(key));
        }
        if let Some(key) = self.dialing.pop_due(moment) {
            return Some(Late::Dialing(key));
        }
        let key = self.watched.pop_due(moment)?;
        Some(Late::Watched(key))
    }

    fn end_late(&mut self, late: Late) -> Result<(), OutOfMemory>
        ensures loses { OnOk result (MayLose self.old self.new) }
        ensures turns { self.new.turns ≡ self.old.turns }
    {
        if let Late::Watched(key) = late {
            return self.look_after(key);
        }
        let Some(key) = self.key_over(late) else {
            return Ok(());
        };
        self.lose(key)?;
        Ok(())
    }

    // Who had time to announce an address, and did not, is closed; a dial that is not open in time has failed.
    fn key_over(&self, late: Late) -> Option<usize> {
        match late {
            Late::Announcing(key) if self.is_stranger(key) => Some(key),
            Late::Dialing(key) if is_dialing(&self.table, key) => Some(key),
            _ => None,
        }
    }

    // Ends a socket whose peer took nothing of what waits since it was looked at.
    fn look_after(&mut self, key: usize) -> Result<(), OutOfMemory>
        ensures loses { OnOk result (MayLose self.old self.new) }
        ensures turns { self.new.turns ≡ self.old.turns }
    {
        if self.unwatch(key) {
            self.queue_write(key)?;
            return Ok(());
        }
        self.lose(key)?;
        Ok(())
    }

    // Whether nothing waits on a socket, or its peer took something. It is looked at no more.
    fn unwatch(&mut self, key: usize) -> bool
        ensures keeps { KeepsAll self.old self.new }
        ensures turns { self.new.turns ≡ self.old.turns }
    {
        let Some(socket) = self.table.sockets.get_mut(&key) else {
            return true;
        };
        socket.is_watched = false;
        socket.unsent() == 0 || socket.has_taken
    }

    /// A peer was accepted, whose socket has this address. Answers the key of the socket.
    pub fn accepted(&mut self, addr: Addr) -> Result<usize, OutOfMemory>
        ensures socket { IfOk result (λ key. Puts self.old.table self.new.table key (Some (newcomer self.old.greeting addr))) }
        ensures key { IfOk result (λ key. key ≡ self.old.table.next_key) }
        ensures events { self.new.events ≡ self.old.events }
        ensures names { OnOk result (NamesSame self.old.table self.new.table) }
        ensures taken { IfOk result (λ key. TakesIn key self.old self.new) }
        ensures made { IfOk result (λ key. Makes (PeerCame addr key) self.old self.new) }
        ensures turns { IfOk result (λ key. Queues (PeerCame addr key) self.old self.new) }
    {
        self.door.count();
        if self.greeting.as_slice().is_empty() {
            let waiting = Socket::new(Stage::Waiting(addr), OutQueue::new(self.alloc));
            self.callers.push_back(self.table.next_key())?;
            let key = self.table.insert(waiting)?;
            return Ok(key);
        }
        let strangers = self.strangers.checked_add(1).ok_or(OutOfMemory)?;
        let key = self.table.insert(stranger(self.alloc))?;
        self.strangers = strangers;
        self.announcing.push(self.moments.moment(), key)?;
        self.fresh.push(key)?;
        Ok(key)
    }

    /// Nobody waited to be accepted.
    pub fn nobody_waits(&mut self)
        ensures made { Makes NobodyWaits self.old self.new }
        ensures turns { Queues NobodyWaits self.old self.new }
    {
        self.door.clear();
    }

    /// Whoever waited to be accepted is gone again.
    pub fn caller_is_gone(&mut self)
        ensures made { Makes PeerIsGone self.old self.new }
        ensures turns { Queues PeerIsGone self.old self.new }
    {
        self.door.count();
    }

    /// The system has no room for the socket of the peer that waits to be accepted.
    pub fn lacks_room(&mut self)
        ensures made { Makes HasNoRoom self.old self.new }
        ensures turns { Queues HasNoRoom self.old self.new }
    {
        self.door.crowd(self.moments.moment(), self.table.len());
    }

    /// The system has no room for a socket that is to connect to this address.
    pub fn lacks_room_to_dial(&mut self, key: usize, addr: Addr) -> Result<(), OutOfMemory>
        ensures made { OnOk result (Makes (HasNoRoomToDial key addr) self.old self.new) }
        ensures turns { OnOk result (Queues (HasNoRoomToDial key addr) self.old self.new) }
    {
        self.lacks_room();
        if self.lose_oldest_stranger()? {
            self.connecting.push_back((key, addr))?;
            return Ok(());
        }
        self.lose(key)?;
        Ok(())
    }

    /// What has become of a socket that connects.
    pub fn dialed(&mut self, key: usize, dialed: Dialed) -> Result<(), OutOfMemory>
        ensures events { OnOk result (self.new.events ≡ self.old.events ++ dial_events (socket_at self.old.table key) dialed) }
        ensures stage { OnOk result (stage_at self.new.table key ≡ after_dial (socket_at self.old.table key) dialed) }
        ensures others { (k : ℕ) → eqb key k ≡ false → stage_at self.new.table k ≡ stage_at self.old.table k }
        ensures made { OnOk result (Makes (DialCameTo key dialed) self.old self.new) }
        ensures turns { OnOk result (Queues (DialCameTo key dialed) self.old self.new) }
    {
        let Some(socket) = self.table.sockets.get_mut(&key) else {
            return Ok(());
        };
        let Stage::Dialing(id) = socket.stage else {
            return Ok(());
        };
        match dialed {
            Dialed::NotYet => Ok(()),
            Dialed::Failed => self.lose(key),
            Dialed::Connected => self.connected(key, id),
        }
    }

    fn connected(&mut self, key: usize, id: Id) -> Result<(), OutOfMemory>
        requires { IsSome (socket_at self.old.table key) }
        ensures events { OnOk result (self.new.events ≡ self.old.events ++ Told id.cid true ∷ []) }
        ensures stage { OnOk result (stage_at self.new.table key ≡ Some (Open id)) }
        ensures others { (k : ℕ) → eqb key k ≡ false → stage_at self.new.table k ≡ stage_at self.old.table k }
        ensures connects { OnOk result (Connects key id self.old self.new) }
        ensures turns { OnOk result (MayQueue self.old.turns self.new.turns key) }
    {
        let Some(socket) = self.table.sockets.get_mut(&key) else {
            return Ok(());
        };
        socket.stage = Stage::Open(id);
        self.events.push(Event::Dialed(id.cid, true))?;
        self.queue_write(key)?;
        self.turns.push(key)
    }

    /// Bytes came on a socket. Answers the event that they are, if they are one.
    pub fn came(&mut self, key: usize, bytes: &[u8]) -> Result<Option<Event>, OutOfMemory>
        requires { IsPiece bytes.now }
        ensures limits { IfOk result (λ event. IfSome event IsWithinLimits) }
        ensures told { IfOk result (λ event. event ≡ told_of (socket_at self.old.table key) bytes.now) }
        ensures after { OnOk result (Puts self.old.table self.new.table key (after_bytes (socket_at self.old.table key) bytes.now)) }
        ensures rest { OnOk result (KeepsRest self.old self.new) }
        ensures made { IfOk result (λ event. Makes (BytesCame key bytes.now event) self.old self.new) }
        ensures turns { IfOk result (λ event. Queues (BytesCame key bytes.now event) self.old self.new) }
    {
        let Some(socket) = self.table.get(key) else {
            return Ok(None);
        };
        match socket.stage {
            Stage::Open(id) => {
                self.turns.push(key)?;
                let bytes = Octets::from_slice(self.alloc, bytes)?;
                Ok(Some(Event::Bytes(id.cid, bytes)))
            }
            Stage::Announcing(_) => {
                self.hear(key, bytes)?;
                Ok(None)
            }
            _ => Ok(None),
        }
    }

    fn hear(&mut self, key: usize, bytes: &[u8]) -> Result<(), OutOfMemory>
        ensures after { OnOk result (Puts self.old.table self.new.table key (after_bytes (socket_at self.old.table key) bytes.now)) }
        ensures rest { OnOk result (KeepsRest self.old self.new) }
        ensures turns { self.new.turns ≡ self.old.turns }
    {
        let Some(socket) = self.table.sockets.get_mut(&key) else {
            return Ok(());
        };
        let Some(heard) = socket.hear(bytes)? else {
            return Ok(());
        };
        match heard {
            Heard::Front => self.fresh.push(key),
            Heard::Whole(addr) => self.introduce(addr, key),
            Heard::Else => self.lose(key),
        }
    }

    // A peer has connected, and its address is known.
    fn introduce(&mut self, addr: Addr, key: usize) -> Result<(), OutOfMemory>
        requires { is_announcing (stage_at self.old.table key) ≡ true }
        ensures after { OnOk result (Puts self.old.table self.new.table key (waits_with addr (socket_at self.old.table key))) }
        ensures rest { OnOk result (KeepsRest self.old self.new) }
        ensures turns { self.new.turns ≡ self.old.turns }
    {
        self.callers.push_back(key)?;
        let Some(socket) = self.table.sockets.get_mut(&key) else {
            return Ok(());
        };
        socket.stage = Stage::Waiting(addr);
        self.strangers = self.strangers.saturating_sub(1);
        Ok(())
    }

    /// The peer sends no more, or the socket has failed.
    pub fn ended(&mut self, key: usize) -> Result<(), OutOfMemory>
        ensures gone { Puts self.old.table self.new.table key None }
        ensures events { OnOk result (self.new.events ≡ self.old.events ++ endings (socket_at self.old.table key)) }
        ensures made { OnOk result (Makes (HasEnded key) self.old self.new) }
        ensures turns { OnOk result (Queues (HasEnded key) self.old self.new) }
    {
        self.lose(key)
    }

    /// So many of the bytes that wait were written.
    pub fn went(&mut self, key: usize, count: usize) -> Result<(), OutOfMemory>
        ensures after { OnOk result (Puts self.old.table self.new.table key (after_going (socket_at self.old.table key) count)) }
        ensures events { OnOk result (self.new.events ≡ self.old.events) }
        ensures rest { OnOk result (KeepsRest self.old self.new) }
        ensures made { OnOk result (Makes (BytesWent key count (went_of (out_at self.old.table key) count)) self.old self.new) }
        ensures turns { OnOk result (Queues (BytesWent key count (went_of (out_at self.old.table key) count)) self.old self.new) }
    {
        let Some(socket) = self.table.sockets.get_mut(&key) else {
            return Ok(());
        };
        self.unsent = self.unsent.saturating_sub(socket.went(count));
        release(socket, &mut self.turns, key)?;
        if socket.unsent() > 0 {
            return self.writes.push(key);
        }
        if matches!(socket.stage, Stage::Closing) {
            return self.lose(key);
        }
        Ok(())
    }

    /// The socket takes no more bytes for now.
    pub fn takes_no_more(&mut self, key: usize) -> Result<(), OutOfMemory>
        ensures after { OnOk result (Puts self.old.table self.new.table key (after_full (socket_at self.old.table key))) }
        ensures events { OnOk result (self.new.events ≡ self.old.events) }
        ensures rest { OnOk result (KeepsRest self.old self.new) }
        ensures made { OnOk result (Makes (TakesNoMore key) self.old self.new) }
        ensures turns { OnOk result (Queues (TakesNoMore key) self.old self.new) }
    {
        let Some(socket) = self.table.sockets.get_mut(&key) else {
            return Ok(());
        };
        socket.is_blocked = true;
        if matches!(socket.stage, Stage::Closing) {
            return self.lose(key);
        }
        Ok(())
    }
}

// Has it read again, where that waited for what is to be sent.
fn release(socket: &mut Socket, turns: &mut TurnQueue, key: usize) -> Result<(), OutOfMemory>
    ensures socket { socket.new ≡ record socket.old { is_held = false } }
    ensures turns { OnOk result (MayQueue turns.old turns.new key) }
{
    if !socket.is_held {
        return Ok(());
    }
    socket.is_held = false;
    turns.push(key)
}
