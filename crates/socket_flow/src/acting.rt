//! What a node has done with its sockets.
ghost use Rattle.std.specs.Prelude.{◌≡◌, ◌++◌, is_some, IfSome, OnOk};
ghost use Rattle.socket_flow.specs.Table.{key_at, KeepsTalk};
ghost use Rattle.socket_flow.specs.Talk.{KeepsAll, MayLose};
ghost use Rattle.socket_flow.specs.Acting.{is_free, Admits, Leaves, Dials, Sends, Closes, answers};
ghost use Rattle.socket_flow.specs.Histories.{Makes, Queues, NodeDoes};
ghost use Rattle.socket_flow.specs.Rounds.{MayQueueAt};

use crate::due_queue::DueQueue;
use crate::flow::SocketFlow;
use crate::id::Id;
use crate::limits::UNSENT_MOST;
use crate::socket::{Socket, Stage};
use net_base::{Action, Addr, Cid, Job, NUMBER_MOST, OutOfMemory};
use node_world::OutQueue;

impl SocketFlow {
    /// Has an action done. What the node only tells is passed over.
    pub fn act(&mut self, action: &Action) -> Result<(), OutOfMemory>
        ensures made { OnOk result (Makes (NodeDoes action.now) self.old self.new) }
        ensures turns { OnOk result (Queues (NodeDoes action.now) self.old self.new) }
    {
        match action {
            Action::Admit(cid, _) => self.admit(*cid),
            Action::Turnaway(_) => self.turn_away(),
            Action::Dial(cid, addr) => self.dial(*cid, *addr),
            Action::Send(cid, bytes) => self.send(*cid, bytes.as_slice()),
            Action::Close(cid, _) => self.close(*cid),
            Action::Pause(time) => {
                self.door.pause(self.moments.moment(), *time);
                Ok(())
            }
            Action::AskRoots(job) => self.answer_roots(*job),
            Action::State(_, _) | Action::Peer(_, _) => Ok(()),
        }
    }

    // An id that a trace may name, of which there is no socket.
    fn free_id(&self, cid: Cid) -> Option<Id>
        ensures free { is_some result ≡ is_free self.now cid.0 }
        ensures id { IfSome result (λ id. id.cid ≡ cid) }
    {
        if self.table.key_of(cid).is_some() {
            return None;
        }
        Id::new(cid)
    }

    fn admit(&mut self, cid: Cid) -> Result<(), OutOfMemory>
        ensures admits { OnOk result (Admits self.old self.new cid) }
        ensures turns { OnOk result (MayQueueAt self.old.turns self.new.turns self.old.caller) }
    {
        let Some(id) = self.free_id(cid) else {
            return Ok(());
        };
        let Some(key) = self.caller else {
            return Ok(());
        };
        self.table.name(id, key)?;
        self.caller = None;
        let Some(socket) = self.table.sockets.get_mut(&key) else {
            return Ok(());
        };
        socket.stage = Stage::Open(id);
        self.turns.push(key)
    }

    /// Closes the socket of the peer that the node was told of, where it is not admitted.
    pub(crate) fn turn_away(&mut self) -> Result<(), OutOfMemory>
        ensures leaves { OnOk result (Leaves self.old self.new) }
        ensures loses { OnOk result (MayLose self.old self.new) }
        ensures callers { self.new.callers ≡ self.old.callers }
        ensures turns { self.new.turns ≡ self.old.turns }
    {
        let Some(key) = self.caller else {
            return Ok(());
        };
        self.lose(key)?;
        self.caller = None;
        Ok(())
    }

    fn dial(&mut self, cid: Cid, addr: Addr) -> Result<(), OutOfMemory>
        ensures dials { OnOk result (Dials self.old self.new cid addr) }
        ensures turns { self.new.turns ≡ self.old.turns }
    {
        let Some(id) = self.free_id(cid) else {
            return Ok(());
        };
        let mut out = OutQueue::new(self.alloc);
        out.put(self.greeting.as_slice())?;
        let unsent = self.unsent.checked_add(out.front().len());
        let unsent = unsent.ok_or(OutOfMemory)?;
        let key = self.table.insert(Socket::new(Stage::Dialing(id), out))?;
        self.unsent = unsent;
        self.table.name(id, key)?;
        self.dialing.push(self.moments.moment(), key)?;
        Ok(self.connecting.push_back((key, addr))?)
    }

    fn send(&mut self, cid: Cid, bytes: &[u8]) -> Result<(), OutOfMemory>
        ensures sends { OnOk result (Sends self.old self.new cid bytes.now) }
        ensures turns { self.new.turns ≡ self.old.turns }
    {
        let Some(key) = self.table.key_of(cid) else {
            return Ok(());
        };
        let unsent = self.unsent.saturating_add(bytes.len());
        if unsent > UNSENT_MOST {
            return self.lose(key);
        }
        let Some(socket) = self.table.sockets.get_mut(&key) else {
            return Ok(());
        };
        socket.out.put(bytes)?;
        self.unsent = unsent;
        self.queue_write(key)
    }

    // Has what waits on a socket written, and looked after that it goes.
    pub(crate) fn queue_write(&mut self, key: usize) -> Result<(), OutOfMemory>
        ensures talk { KeepsTalk self.old.table self.new.table }
        ensures events { self.new.events ≡ self.old.events }
        ensures keeps { KeepsAll self.old self.new }
        ensures turns { self.new.turns ≡ self.old.turns }
    {
        let Some(socket) = self.table.sockets.get_mut(&key) else {
            return Ok(());
        };
        if socket.unsent() == 0 || matches!(socket.stage, Stage::Dialing(_)) {
            return Ok(());
        }
        watch(socket, &mut self.watched, self.moments.moment(), key)?;
        if socket.is_blocked {
            return Ok(());
        }
        self.writes.push(key)
    }

    // Closes a connection, once as much of what waits is written as its socket takes at once.
    fn close(&mut self, cid: Cid) -> Result<(), OutOfMemory>
        ensures closes { OnOk result (Closes self.old self.new cid) }
        ensures turns { self.new.turns ≡ self.old.turns }
    {
        let Some(key) = self.table.key_of(cid) else {
            return Ok(());
        };
        self.table.forget(cid.0);
        let Some(socket) = self.table.sockets.get_mut(&key) else {
            return Ok(());
        };
        if !socket.is_linked() {
            return Ok(());
        }
        let writes = matches!(socket.stage, Stage::Open(_))
            && !socket.is_blocked
            && 0 < socket.unsent();
        socket.stage = Stage::Closing;
        if writes {
            self.writes.push(key)
        } else {
            self.lose(key)
        }
    }

    fn answer_roots(&mut self, job: Job) -> Result<(), OutOfMemory>
        ensures { OnOk result (self.new ≡ record self.old { events = self.old.events ++ answers self.old.roots job }) }
    {
        if job.0 > NUMBER_MOST {
            return Ok(());
        }
        let answer = self.roots.answer(job)?;
        self.events.push(answer)
    }
}

// Has it looked after that the peer takes what waits.
fn watch(
    socket: &mut Socket,
    watched: &mut DueQueue,
    moment: u64,
    key: usize,
) -> Result<(), OutOfMemory>
    ensures stage { socket.new.stage ≡ socket.old.stage }
    ensures out { socket.new.out ≡ socket.old.out }
{
    if socket.is_watched {
        return Ok(());
    }
    socket.is_watched = true;
    socket.has_taken = false;
    watched.push(moment, key)
}
