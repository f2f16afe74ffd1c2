//! What is to be done next.
ghost use Rattle.std.specs.Prelude.{◌≡◌, ◌<◌, [], true, false, None, Some, ◌⊎◌, IfOk, OnOk, IfSome, IfNone};
ghost use Rattle.net_base.specs.Limits.{IsWithinLimits};
ghost use Rattle.socket_flow.specs.Table.{stage_at, is_dialing as connects, waiting_of};
ghost use Rattle.socket_flow.specs.Asks.{GivesWithinLimits, IsFirst, IsNextCaller, IsNoRead, IsNoAccept, AsksForRoom, Gives, IsOfSockets, IsReadable, comes_last, IsQuiet, HasNoDial, ComesAfter, NoneIsLeft};
ghost use Rattle.socket_flow.specs.Histories.{Makes, Queues, NodeAsks};
ghost use Rattle.socket_flow.specs.declared.socket.Stage.TheVariants.{Waiting};
ghost use Rattle.socket_flow.specs.Peers.{IsNextOf, NoneOf};
ghost use Rattle.socket_flow.specs.Rounds.{HasPassed, HasTurn, IsTurnOf, may_be_read, turn_of};
ghost use Rattle.socket_flow.specs.Talk.{KeepsAll, MayLose};

use crate::ask::Ask;
use crate::flow::{SocketFlow, is_dialing};
use crate::limits::{READ_LEAST, READ_MOST, ROUND_MOST};
use crate::socket::Stage;
use crate::socket_table::SocketTable;
use crate::turn_queue::TurnQueue;
use net_base::{Addr, Event, OutOfMemory};
use std::collections::VecDeque;

impl SocketFlow {
    /// What is to be done next. It is to be told what came of it before it is asked again.
    pub fn ask(&mut self) -> Result<Ask, OutOfMemory>
        ensures limits { IfOk result GivesWithinLimits }
        ensures gives { IfOk result (Gives self.old self.new) }
        ensures made { IfOk result (λ ask. Makes (NodeAsks ask) self.old self.new) }
        ensures turns { IfOk result (λ ask. Queues (NodeAsks ask) self.old self.new) }
    {
        if let Some(ask) = self.ask_of_sockets() {
            return Ok(ask);
        }
        // A peer that the node was told of, and neither admitted nor turned away.
        self.turn_away()?;
        if let Some(event) = self.next_event() {
            return Ok(Ask::Give(event));
        }
        Ok(self.ask_of_peers()?)
    }

    // No event waits: what those who connect or announce themselves, those who wait to be accepted, and connections come to.
    fn ask_of_peers(&mut self) -> Result<Ask, OutOfMemory>
        ensures sockets { IfOk result IsOfSockets }
        ensures loses { OnOk result (MayLose self.old self.new) }
        ensures events { OnOk result (self.new.events ≡ self.old.events) }
        ensures readable { IfOk result (IsReadable self.new.table) }
        ensures room { IfOk result (AsksForRoom self.new) }
        ensures callers { self.new.callers ≡ self.old.callers }
        ensures turns { IfOk result (HasTurn self.old self.new) }
    {
        if let Some(ask) = next_fresh(&mut self.fresh, &self.table) {
            return Ok(ask);
        }
        if let Some(ask) = self.ask_to_accept()? {
            return Ok(ask);
        }
        Ok(self.ask_of_turns())
    }

    fn ask_of_turns(&mut self) -> Ask
        ensures sockets { IsOfSockets result }
        ensures keeps { KeepsAll self.old self.new }
        ensures readable { IsReadable self.new.table result }
        ensures accepts { IsNoAccept result }
        ensures callers { self.new.callers ≡ self.old.callers }
        ensures turns { HasTurn self.old self.new result }
    {
        if let Some(ask) = self.next_turn() {
            return ask;
        }
        if self.moments.take_tick() {
            return Ask::Govern;
        }
        Ask::Wait(self.time_to_wait())
    }

    // To close, to connect and to write, in this order.
    fn ask_of_sockets(&mut self) -> Option<Ask>
        ensures sockets { IfSome result IsOfSockets }
        ensures table { self.new.table ≡ self.old.table }
        ensures caller { self.new.caller ≡ self.old.caller }
        ensures keeps { KeepsAll self.old self.new }
        ensures readable { IfSome result (IsReadable self.new.table) }
        ensures unread { IfSome result IsNoRead }
        ensures accepts { IfSome result IsNoAccept }
        ensures early { IfSome result (λ ask. comes_last ask ≡ false) }
        ensures order { IfSome result (ComesAfter self.old) }
        ensures none { IfNone result (NoneIsLeft self.old) }
        ensures callers { self.new.callers ≡ self.old.callers }
        ensures turns { self.new.turns ≡ self.old.turns }
    {
        if let Some(key) = self.closing.pop_front() {
            return Some(Ask::Close(key));
        }
        if let Some((key, addr)) = next_dial(&mut self.connecting, &self.table) {
            return Some(Ask::Connect { key, addr });
        }
        let key = self.writes.pop()?;
        Some(Ask::Write(key))
    }

    // An event that waits, or else the next peer that has connected.
    fn next_event(&mut self) -> Option<Event>
        requires { self.old.caller ≡ None }
        ensures limits { IfSome result IsWithinLimits }
        ensures told { IfSome result (λ event. IsFirst self.old self.new event ⊎ IsNextCaller self.old self.new event) }
        ensures none { IfNone result (KeepsAll self.old self.new) }
        ensures quiet { IfNone result (IsQuiet self.new) }
        ensures turns { self.new.turns ≡ self.old.turns }
    {
        if let Some(event) = self.events.pop() {
            return Some(event);
        }
        let (key, addr) = next_caller(&mut self.callers, &self.table)?;
        let Some(socket) = self.table.sockets.get_mut(&key) else {
            unreachable!()
        };
        socket.stage = Stage::Told;
        self.caller = Some(key);
        Some(Event::Accepted(addr))
    }

    // There is room for one more that announces itself, as far as is known.
    fn has_room(&self, moment: u64) -> bool
        ensures { result ≡ true → self.now.strangers < self.now.strangers_most }
    {
        self.strangers < self.strangers_most && self.door.has_room(moment, self.table.len())
    }

    // Where there is no room for one more, the oldest that has not announced itself goes first.
    fn ask_to_accept(&mut self) -> Result<Option<Ask>, OutOfMemory>
        ensures limits { IfOk result (λ ask. IfSome ask IsOfSockets) }
        ensures loses { OnOk result (MayLose self.old self.new) }
        ensures events { OnOk result (self.new.events ≡ self.old.events) }
        ensures readable { IfOk result (λ ask. IfSome ask (IsReadable self.new.table)) }
        ensures room { IfOk result (λ ask. IfSome ask (AsksForRoom self.new)) }
        ensures callers { self.new.callers ≡ self.old.callers }
        ensures turns { self.new.turns ≡ self.old.turns }
        ensures turn { IfOk result (λ ask. IfSome ask (λ ask. turn_of self.new.table ask ≡ [])) }
    {
        let moment = self.moments.moment();
        if !self.door.is_open(moment) {
            return Ok(None);
        }
        if self.has_room(moment) {
            return Ok(Some(Ask::Accept));
        }
        if !self.lose_oldest_stranger()? {
            self.door.rest(moment);
            return Ok(None);
        }
        Ok(self.closing.pop_front().map(Ask::Close))
    }

    // Connections, each as often as it stood in line when the round began.
    fn next_turn(&mut self) -> Option<Ask>
        ensures sockets { IfSome result IsOfSockets }
        ensures keeps { KeepsAll self.old self.new }
        ensures readable { IfSome result (IsReadable self.new.table) }
        ensures accepts { IfSome result IsNoAccept }
        ensures callers { self.new.callers ≡ self.old.callers }
        ensures turns { IfSome result (HasTurn self.old self.new) }
        ensures none { IfNone result (HasPassed self.new self.old.turns self.new.turns) }
    {
        for _ in 0..self.left {
            self.left = self.left.saturating_sub(1);
            let key = self.turns.pop()?;
            if let Some(ask) = self.turn(key) {
                return Some(ask);
            }
        }
        None
    }

    fn turn(&mut self, key: usize) -> Option<Ask>
        ensures sockets { IfSome result IsOfSockets }
        ensures keeps { KeepsAll self.old self.new }
        ensures readable { IfSome result (IsReadable self.new.table) }
        ensures accepts { IfSome result IsNoAccept }
        ensures unsent { self.new.unsent ≡ self.old.unsent }
        ensures callers { self.new.callers ≡ self.old.callers }
        ensures turns { self.new.turns ≡ self.old.turns }
        ensures turn { IfSome result (IsTurnOf self.new key) }
        ensures none { IfNone result (may_be_read self.new key ≡ false) }
    {
        let socket = self.table.sockets.get_mut(&key)?;
        if !matches!(socket.stage, Stage::Open(_)) {
            return None;
        }
        if socket.is_behind(self.unsent) {
            socket.is_held = true;
            return None;
        }
        Some(Ask::Read {
            key,
            most: self.share(),
        })
    }

    // How many bytes are read of one of those that are ready.
    fn share(&self) -> usize {
        let ready = self.turns.len().saturating_add(1).max(1);
        (ROUND_MOST / ready).clamp(READ_LEAST, READ_MOST)
    }

    fn time_to_wait(&self) -> u64 {
        if 0 < self.turns.len() {
            return 0;
        }
        let moment = self.moments.moment();
        let mut time = self.moments.until_tick();
        let dues = [
            self.announcing.first_until(),
            self.dialing.first_until(),
            self.watched.first_until(),
        ];
        for until in dues.into_iter().flatten() {
            time = time.min(until.saturating_sub(moment));
        }
        match self.door.until_open(moment) {
            Some(until) => time.min(until),
            None => time,
        }
    }
}

// Those that connect or announce themselves come before others are accepted: little is read of them.
fn next_fresh(fresh: &mut TurnQueue, table: &SocketTable) -> Option<Ask>
    ensures sockets { IfSome result IsOfSockets }
    ensures readable { IfSome result (IsReadable table.now) }
    ensures accepts { IfSome result IsNoAccept }
    ensures turn { IfSome result (λ ask. turn_of table.now ask ≡ []) }
{
    for _ in 0..u64::MAX {
        let key = fresh.pop()?;
        let ask = fresh_turn(table, key);
        if ask.is_some() {
            return ask;
        }
    }
    None
}

fn fresh_turn(table: &SocketTable, key: usize) -> Option<Ask>
    ensures sockets { IfSome result IsOfSockets }
    ensures readable { IfSome result (IsReadable table.now) }
    ensures accepts { IfSome result IsNoAccept }
    ensures turn { IfSome result (λ ask. turn_of table.now ask ≡ []) }
{
    let socket = table.get(key)?;
    match socket.stage {
        Stage::Dialing(_) => Some(Ask::Check(key)),
        Stage::Announcing(_) => Some(Ask::Read {
            key,
            most: socket.unheard(),
        }),
        _ => None,
    }
}

// Takes out the dials up to the first that is to be begun still: one may be given up before.
fn next_dial(connecting: &mut VecDeque<(usize, Addr)>, table: &SocketTable) -> Option<(usize, Addr)>
    ensures dials { IfSome result (λ next. connects (stage_at table.now next.0) ≡ true) }
    ensures none { IfNone result (HasNoDial table.now connecting.old.items) }
{
    while let Some((key, addr)) = connecting.pop_front() {
        if is_dialing(table, key) {
            return Some((key, addr));
        }
    }
    None
}

// Takes out the peers up to the first that waits still.
fn next_caller(callers: &mut VecDeque<usize>, table: &SocketTable) -> Option<(usize, Addr)>
    ensures next { IfSome result (λ next. IsNextOf table.now callers.old.items next.0 next.1 callers.new.items) }
    ensures waits { IfSome result (λ next. stage_at table.now next.0 ≡ Some (Waiting next.1)) }
    ensures none { IfNone result (NoneOf table.now callers.old.items) }
    ensures empty { IfNone result (callers.new.items ≡ []) }
{
    while let Some(key) = callers.pop_front() {
        if let Some(addr) = caller_at(table, key) {
            return Some((key, addr));
        }
    }
    None
}

fn caller_at(table: &SocketTable, key: usize) -> Option<Addr>
    ensures { result ≡ waiting_of (stage_at table.now key) }
{
    let socket = table.get(key)?;
    match socket.stage {
        Stage::Waiting(addr) => Some(addr),
        _ => None,
    }
}
