ghost use Rattle.std.specs.Prelude.{◌≡◌, ◌≤◌, true, length, IfSome};
ghost use Rattle.socket_flow.specs.Counts.{IsMost, IsBelow, unsent_at, stranger_at};
ghost use Rattle.socket_flow.specs.Peers.{IsToldAlone, StandInLine};
ghost use Rattle.socket_flow.specs.Table.{stage_at, is_announcing, is_dialing as connects};

use crate::announcement::greeting_of;
use crate::door::Door;
use crate::due_queue::DueQueue;
use crate::moments::Moments;
use crate::roots::Roots;
use crate::socket::Stage;
use crate::socket_table::SocketTable;
use crate::terms::Terms;
use crate::turn_queue::TurnQueue;
use net_base::{Addr, AddrList, Event, Octets, OutOfMemory};
use node_world::Waiting;
use std::alloc::Global;
use std::collections::VecDeque;

/// The sockets of a node as keys, what each is for, and what is to be done on them next.
#[derive(Drop)]
pub struct SocketFlow {
    pub(crate) alloc: Global,
    pub(crate) table: SocketTable,
    pub(crate) moments: Moments,
    pub(crate) door: Door,
    pub(crate) roots: Roots,
    // What this node says first where it dials. Nothing where addresses are not announced.
    pub(crate) greeting: Octets,
    // Events that wait to be given, beside those that sockets bring at their turn.
    pub(crate) events: Waiting,
    // Connections that may have bytes.
    pub(crate) turns: TurnQueue,
    // How many of them still have their turn in this round.
    pub(crate) left: usize,
    // Sockets that connect or announce an address, and may have got on with it.
    pub(crate) fresh: TurnQueue,
    // Sockets on which something is to be written.
    pub(crate) writes: TurnQueue,
    pub(crate) connecting: VecDeque<(usize, Addr)>,
    pub(crate) closing: VecDeque<usize>,
    // Peers that have connected and of which the node is to be told.
    pub(crate) callers: VecDeque<usize>,
    // The peer that the node was told of, until it is admitted or turned away.
    pub(crate) caller: Option<usize>,
    pub(crate) announcing: DueQueue,
    pub(crate) dialing: DueQueue,
    pub(crate) watched: DueQueue,
    // How many announce their address, and how many do at most.
    pub(crate) strangers: u64,
    pub(crate) strangers_most: u64,
    // How many bytes wait to be sent, on all sockets.
    pub(crate) unsent: usize,
    ghost said: { length greeting ≤ 19 },
    ghost counted: { IsMost (unsent_at table) unsent },
    ghost bounded: { IsBelow table },
    ghost announces: { IsMost (stranger_at table) strangers },
    ghost alone: { IsToldAlone table caller },
    ghost in_line: { StandInLine table callers.items },
}

impl SocketFlow {
    ghost use Rattle.std.specs.Prelude.{◌≡◌, ℕ, [], ◌∷◌, ◌++◌, None, is_some, if◌then◌else◌, IfOk, OnOk};
    ghost use Rattle.socket_flow.specs.Table.{socket_at, key_at, out_at, is_of, Puts};
    ghost use Rattle.socket_flow.specs.Flow.{endings};
    ghost use Rattle.socket_flow.specs.Talk.{Begins, Loses, MayLose};

    /// Nobody has connected yet, and it is moment 0.
    pub fn new(alloc: Global, terms: Terms, publics: &AddrList) -> Result<SocketFlow, OutOfMemory>
        ensures { IfOk result (Begins terms) }
    {
        Ok(SocketFlow {
            alloc,
            table: SocketTable::new(alloc),
            moments: Moments::new(terms.tick),
            door: Door::new(),
            roots: Roots::new(alloc, publics, terms.rootttl)?,
            greeting: greeting_of(alloc, terms)?,
            events: Waiting::new(alloc),
            turns: TurnQueue::new(alloc),
            left: 0,
            fresh: TurnQueue::new(alloc),
            writes: TurnQueue::new(alloc),
            connecting: VecDeque::new(alloc),
            closing: VecDeque::new(alloc),
            callers: VecDeque::new(alloc),
            caller: None,
            announcing: DueQueue::new(alloc, terms.handshake),
            dialing: DueQueue::new(alloc, terms.handshake),
            watched: DueQueue::new(alloc, terms.reply),
            strangers: 0,
            strangers_most: terms.soft.max(1),
            unsent: 0,
        })
    }

    /// What waits to be sent on a socket, the first byte to go first.
    pub fn outgoing(&self, key: usize) -> &[u8]
        ensures { result.now ≡ out_at self.now.table key }
    {
        match self.table.get(key) {
            Some(socket) => socket.out.front(),
            None => &[],
        }
    }

    // The socket is gone, which is an event of its connection.
    pub(crate) fn lose(&mut self, key: usize) -> Result<(), OutOfMemory>
        ensures events { OnOk result (self.new.events ≡ self.old.events ++ endings (socket_at self.old.table key)) }
        ensures gone { Puts self.old.table self.new.table key None }
        ensures names { (cid : ℕ) → key_at self.new.table cid ≡ (if is_of (socket_at self.old.table key) cid then None else key_at self.old.table cid) }
        ensures caller { self.new.caller ≡ self.old.caller }
        ensures closing { OnOk result (self.new.closing.items ≡ self.old.closing.items ++ (if is_some (socket_at self.old.table key) then key ∷ [] else [])) }
        ensures loses { OnOk result (Loses key self.old self.new) }
        ensures callers { self.new.callers ≡ self.old.callers }
        ensures turns { self.new.turns ≡ self.old.turns }
    {
        let Some(socket) = self.table.remove(key) else {
            return Ok(());
        };
        self.unsent = self.unsent.saturating_sub(socket.unsent());
        self.closing.push_back(key)?;
        match socket.stage {
            Stage::Dialing(id) => self.events.push(Event::Dialed(id.cid, false)),
            Stage::Open(id) => self.events.push(Event::Closed(id.cid)),
            Stage::Announcing(_) => {
                self.strangers = self.strangers.saturating_sub(1);
                Ok(())
            }
            Stage::Waiting(_) | Stage::Told | Stage::Closing => Ok(()),
        }
    }

    // Closes the socket that has announced its address for longest and not wholly. Answers whether there is one.
    pub(crate) fn lose_oldest_stranger(&mut self) -> Result<bool, OutOfMemory>
        ensures loses { OnOk result (MayLose self.old self.new) }
        ensures events { OnOk result (self.new.events ≡ self.old.events) }
        ensures callers { self.new.callers ≡ self.old.callers }
        ensures turns { self.new.turns ≡ self.old.turns }
    {
        match oldest_stranger(&mut self.announcing, &self.table) {
            Some(key) => {
                self.lose(key)?;
                Ok(true)
            }
            None => Ok(false),
        }
    }

    pub(crate) fn is_stranger(&self, key: usize) -> bool {
        is_stranger(&self.table, key)
    }
}

fn is_stranger(table: &SocketTable, key: usize) -> bool
    ensures { result ≡ is_announcing (stage_at table.now key) }
{
    match table.get(key) {
        Some(socket) => matches!(socket.stage, Stage::Announcing(_)),
        None => false,
    }
}

pub(crate) fn is_dialing(table: &SocketTable, key: usize) -> bool
    ensures { result ≡ connects (stage_at table.now key) }
{
    match table.get(key) {
        Some(socket) => matches!(socket.stage, Stage::Dialing(_)),
        None => false,
    }
}

// Takes out the keys up to the first whose socket has not announced its address wholly.
fn oldest_stranger(announcing: &mut DueQueue, table: &SocketTable) -> Option<usize>
    ensures { IfSome result (λ key. is_announcing (stage_at table.now key) ≡ true) }
{
    for _ in 0..u64::MAX {
        let key = announcing.pop()?;
        if is_stranger(table, key) {
            return Some(key);
        }
    }
    None
}
