//! What is done of what an engine asks for.

use crate::addresses::place_of;
use crate::ground::Ground;
use crate::happening::Happening;
use crate::link::Side;
use net_base::{Action, Cid, Job, OutOfMemory};

impl Ground {
    /// Does what a node's engine asks for, after it took an event.
    pub(crate) fn act_all(&mut self, index: usize, actions: &[Action]) -> Result<(), OutOfMemory> {
        self.reporter.events = self.reporter.events.saturating_add(1);
        for action in actions {
            self.act(index, action)?;
        }
        Ok(())
    }

    fn act(&mut self, index: usize, action: &Action) -> Result<(), OutOfMemory> {
        match action {
            Action::Admit(cid, _) => self.admit(index, *cid),
            Action::Turnaway(_) => self.turn_away(),
            Action::Dial(cid, addr) => self.dial(index, Some(*cid), place_of(*addr)),
            Action::Send(cid, bytes) => self.send(index, *cid, bytes.as_slice()),
            Action::Close(cid, _) => self.hang_up(index, *cid),
            Action::Pause(time) => self.pause(index, *time),
            Action::AskRoots(job) => self.ask_roots(index, *job),
            Action::Peer(_, _) | Action::State(_, _) => self.hear(index, action),
        }
    }

    // The peer that asks to be accepted is.
    fn admit(&mut self, index: usize, cid: Cid) -> Result<(), OutOfMemory> {
        match self.caller.take() {
            Some(link) => self.name_end(link, index, cid),
            None => Ok(()),
        }
    }

    /// The peer that asks to be accepted isn't, where it asks still.
    pub(crate) fn turn_away(&mut self) -> Result<(), OutOfMemory> {
        match self.caller.take() {
            Some(link) => self.shut(link, Side::Acceptor),
            None => Ok(()),
        }
    }

    fn pause(&mut self, index: usize, time: u64) -> Result<(), OutOfMemory> {
        let until = self.agenda.now.saturating_add(time);
        match self.nodes.get_mut(index) {
            Some(node) => {
                node.paused_until = node.paused_until.max(until);
                self.agenda.later(time, Happening::Resume(index, node.life))
            }
            None => Ok(()),
        }
    }

    fn ask_roots(&mut self, index: usize, job: Job) -> Result<(), OutOfMemory> {
        let time = self.scenario.links.latency_most;
        match self.nodes.get(index) {
            Some(node) => self
                .agenda
                .later(time, Happening::Roots(index, node.life, job)),
            None => Ok(()),
        }
    }

    fn hear(&mut self, index: usize, action: &Action) -> Result<(), OutOfMemory> {
        match self.nodes.get_mut(index) {
            Some(node) => node.peers.hear(action),
            None => Ok(()),
        }
    }
}
