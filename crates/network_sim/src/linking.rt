//! How links come, carry bytes and go.

use crate::ground::Ground;
use crate::happening::Happening;
use crate::link::{Hold, Link, Side};
use crate::task::After;
use net_base::{Addr, Cid, Event, Octets, OutOfMemory};

// How a dial is answered.
enum Answer {
    Open,
    Refused,
    Nothing,
}

impl Ground {
    /// A node dials another one. An attacker calls a link by the link's own number.
    pub(crate) fn dial(
        &mut self,
        from: usize,
        cid: Option<Cid>,
        to: usize,
    ) -> Result<(), OutOfMemory> {
        let id = self.links.next;
        let cid = cid.unwrap_or(Cid(id));
        let links = self.scenario.links;
        let latency = self.draws.between(links.latency_least, links.latency_most);
        self.links
            .put(Link::new(self.alloc, from, cid, to, latency))?;
        self.nodes.hold(
            from,
            cid,
            Hold {
                link: id,
                side: Side::Dialer,
            },
        )?;
        if self.draws.chance(links.lost) {
            self.agenda.later(links.wait, Happening::Dialed(id, false))
        } else {
            self.agenda.later(latency, Happening::Connect(id))
        }
    }

    /// The acceptor has admitted the dialer: the end of the link is its connection of this id from now on.
    pub(crate) fn name_end(&mut self, link: u64, node: usize, cid: Cid) -> Result<(), OutOfMemory> {
        if let Some(end) = self.links.end_mut(link, Side::Acceptor) {
            end.cid = Some(cid);
        }
        self.nodes.hold(
            node,
            cid,
            Hold {
                link,
                side: Side::Acceptor,
            },
        )
    }

    /// A dial reaches the other side.
    pub(crate) fn connect(&mut self, id: u64) -> Result<(), OutOfMemory> {
        let Some((from, to, latency)) = self.links.ends_of(id) else {
            return Ok(());
        };
        let time = match self.answer_to(from, to) {
            Answer::Open => return self.open(id, to, latency),
            Answer::Refused => latency,
            Answer::Nothing => self.scenario.links.wait,
        };
        self.agenda.later(time, Happening::Dialed(id, false))
    }

    fn answer_to(&self, from: usize, to: usize) -> Answer {
        let is_hidden = match self.kind_of(to) {
            Some(kind) => kind.hidden,
            None => true,
        };
        if is_hidden || self.nodes.are_apart(from, to) {
            Answer::Nothing
        } else if self.nodes.is_up(to) {
            Answer::Open
        } else {
            Answer::Refused
        }
    }

    // The socket is open. An attacker accepts at once; a node once it accepts.
    fn open(&mut self, id: u64, to: usize, latency: u64) -> Result<(), OutOfMemory> {
        if let Some(end) = self.links.end_mut(id, Side::Acceptor) {
            end.is_open = true;
        }
        self.agenda.later(latency, Happening::Dialed(id, true))?;
        if self.nodes.is_honest(to) {
            self.nodes.wait(to, id)?;
            self.after = After::Welcome(to);
            Ok(())
        } else {
            self.name_end(id, to, Cid(id))
        }
    }

    /// A node that accepts hears what came early of the one that it was asked about last, or that the next one asks to be
    /// accepted. That goes on until nobody does, or accepting pauses.
    pub(crate) fn welcome(&mut self, index: usize) -> Result<(), OutOfMemory> {
        self.turn_away()?;
        if let Some(event) = self.links.take_early(self.called) {
            self.give(index, event);
            return Ok(());
        }
        self.called = self.next_caller(index);
        match self.called {
            Some(link) => {
                if let Some(from) = self.call(link) {
                    self.give(index, Event::Accepted(from));
                }
            }
            None => self.after = After::Nothing,
        }
        Ok(())
    }

    // The link of the one that waits longest to be accepted.
    fn next_caller(&mut self, index: usize) -> Option<u64> {
        let node = self.nodes.get_mut(index)?;
        if self.agenda.now < node.paused_until {
            return None;
        }
        node.callers.pop_front()
    }

    // The address of who asks to be accepted, where it does still.
    fn call(&mut self, id: u64) -> Option<Addr> {
        self.links.open_end(id, Side::Acceptor)?;
        let (from, _, _) = self.links.ends_of(id)?;
        let addr = self.nodes.get(from)?.addr;
        self.caller = Some(id);
        Some(addr)
    }

    /// A dial has ended.
    pub(crate) fn dial_ends(&mut self, id: u64, is_open: bool) -> Result<(), OutOfMemory> {
        let Some((node, Some(cid))) = self.links.open_end(id, Side::Dialer) else {
            return Ok(());
        };
        if !is_open {
            self.links.remove(id);
            self.nodes.let_go(node, cid);
        } else if !self.nodes.is_honest(node) {
            self.propose(id)?;
        }
        self.give(node, Event::Dialed(cid, is_open));
        Ok(())
    }

    /// Bytes that a node sends on a connection.
    pub(crate) fn send(&mut self, index: usize, cid: Cid, bytes: &[u8]) -> Result<(), OutOfMemory> {
        match self.nodes.hold_of(index, cid) {
            Some(hold) => self.deliver(hold.link, hold.side.other(), bytes),
            None => Ok(()),
        }
    }

    /// Puts bytes on their way to an end, in one piece or two.
    pub(crate) fn deliver(&mut self, id: u64, side: Side, bytes: &[u8]) -> Result<(), OutOfMemory> {
        let count = bytes.len();
        self.reporter.bytes = self.reporter.bytes.saturating_add(count as u64);
        if count >= 2 && self.draws.chance(self.scenario.links.cut) {
            let (front, behind) = bytes.split_at(count / 2);
            self.deliver_piece(id, side, front)?;
            self.deliver_piece(id, side, behind)
        } else {
            self.deliver_piece(id, side, bytes)
        }
    }

    fn deliver_piece(&mut self, id: u64, side: Side, bytes: &[u8]) -> Result<(), OutOfMemory> {
        let delay = self.draw_delay();
        match self.arrival(id, side, delay) {
            Some(moment) => {
                let bytes = Octets::from_slice(self.alloc, bytes)?;
                self.agenda.put(moment, Happening::Arrive(id, side, bytes))
            }
            None => Ok(()),
        }
    }

    fn draw_delay(&mut self) -> u64 {
        if self.draws.chance(self.scenario.links.late) {
            self.scenario.links.again
        } else {
            0
        }
    }

    // When what is sent now comes to an end. None where it never does.
    fn arrival(&mut self, id: u64, side: Side, delay: u64) -> Option<u64> {
        let sent = self.agenda.now.saturating_add(delay);
        let link = self.links.get_mut(id)?;
        if self.nodes.parts(link) {
            return None;
        }
        link.arrival(side, sent)
    }

    /// Bytes come to an end. Before it is admitted they wait.
    pub(crate) fn arrive(&mut self, id: u64, side: Side, bytes: Octets) -> Result<(), OutOfMemory> {
        match self.links.open_end(id, side) {
            Some((node, Some(cid))) => self.read(id, side, node, cid, bytes),
            Some((_, None)) => self.links.keep(id, bytes),
            None => Ok(()),
        }
    }

    fn read(
        &mut self,
        id: u64,
        side: Side,
        node: usize,
        cid: Cid,
        bytes: Octets,
    ) -> Result<(), OutOfMemory> {
        if !self.nodes.is_honest(node) {
            return self.answer(id, side, node, bytes.as_slice());
        }
        self.give(node, Event::Bytes(cid, bytes));
        Ok(())
    }

    /// A node closes a connection.
    pub(crate) fn hang_up(&mut self, index: usize, cid: Cid) -> Result<(), OutOfMemory> {
        match self.nodes.hold_of(index, cid) {
            Some(hold) => {
                self.nodes.let_go(index, cid);
                self.shut(hold.link, hold.side)
            }
            None => Ok(()),
        }
    }

    /// An end closes. The other one hears it later.
    pub(crate) fn shut(&mut self, id: u64, side: Side) -> Result<(), OutOfMemory> {
        let other = side.other();
        let arrival = self.arrival(id, other, 0);
        self.links.close(id, side);
        match arrival {
            Some(moment) => self.agenda.put(moment, Happening::Closed(id, other)),
            None => Ok(()),
        }
    }

    /// An end hears that the other one has closed.
    pub(crate) fn end_closed(&mut self, id: u64, side: Side) {
        let Some((node, cid)) = self.links.open_end(id, side) else {
            return;
        };
        self.links.close(id, side);
        if let Some(cid) = cid {
            self.nodes.let_go(node, cid);
            self.give(node, Event::Closed(cid));
        }
    }

    /// Who waits for a node is refused, and its links end.
    pub(crate) fn drop_all(&mut self, index: usize) -> Result<(), OutOfMemory> {
        for _ in 0..u64::MAX {
            match self.nodes.take_hold(index) {
                Some(hold) => self.shut(hold.link, hold.side)?,
                None => return Ok(()),
            }
        }
        Ok(())
    }
}
