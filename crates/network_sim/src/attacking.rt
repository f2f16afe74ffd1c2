//! What an attacker's nodes do.

ghost use Rattle.std.specs.Prelude.{◌<◌, ◌^◌};

use crate::addresses::address_of;
use crate::ground::Ground;
use crate::link::Side;
use crate::segments::{ACCEPTANCE, ALIVE_WITH_FIVE, NO_INTERSECTION, PROPOSAL};
use mux_segment::{Header, INITIATOR, RESPONDER, frame, split_segment};
use net_base::protocol::{CHAIN_SYNC, HANDSHAKE, KEEP_ALIVE, PEER_SHARING};
use net_base::{AddrList, Octets, OutOfMemory};
use network_scenario::Role;
use std::alloc::Global;
use warm_messages::write_peers;

// At most so many addresses may be asked for.
const PEERS_MOST: u8 = 10;

impl Ground {
    /// An attacker's node takes one more slot, where it holds fewer than it wants.
    pub(crate) fn attack(&mut self, index: usize) -> Result<(), OutOfMemory> {
        if !self.wants_slots(index) {
            return Ok(());
        }
        match self.draws.place(self.nodes.all.len()) {
            Some(to) if self.nodes.is_honest(to) => self.dial(index, None, to),
            _ => Ok(()),
        }
    }

    fn wants_slots(&self, index: usize) -> bool {
        match (self.nodes.get(index), self.kind_of(index)) {
            (Some(node), Some(kind)) => node.dialed() < kind.holds,
            _ => false,
        }
    }

    /// An attacker's node proposes, on a socket that it opened.
    pub(crate) fn propose(&mut self, id: u64) -> Result<(), OutOfMemory> {
        let bytes = frame(self.alloc, INITIATOR, HANDSHAKE, 0, &PROPOSAL)?;
        self.deliver(id, Side::Acceptor, bytes.as_slice())
    }

    /// An attacker's node answers what came.
    pub(crate) fn answer(
        &mut self,
        id: u64,
        side: Side,
        node: usize,
        bytes: &[u8],
    ) -> Result<(), OutOfMemory> {
        let Some((header, payload, [])) = split_segment(bytes) else {
            return Ok(());
        };
        match self.answer_of(node, header, payload)? {
            Some(answer) => self.deliver(id, side.other(), answer.as_slice()),
            None => Ok(()),
        }
    }

    fn answer_of(
        &mut self,
        node: usize,
        header: Header,
        payload: &[u8],
    ) -> Result<Option<Octets>, OutOfMemory> {
        if header.id == HANDSHAKE {
            return answer_in_handshake(self.alloc, header);
        }
        if header.side != INITIATOR || !self.answers(node) {
            return Ok(None);
        }
        match (header.id, payload) {
            (KEEP_ALIVE, [0x82, 0x00, cookie @ ..]) => say_alive(self.alloc, cookie),
            (CHAIN_SYNC, [0x82, 0x04, 0x80]) => said(self.alloc, CHAIN_SYNC, &NO_INTERSECTION),
            (PEER_SHARING, [0x82, 0x00, count]) => self.tell_attackers(*count),
            _ => Ok(None),
        }
    }

    fn answers(&self, node: usize) -> bool {
        match self.nodes.get(node) {
            Some(node) => matches!(node.role, Role::Answering),
            None => false,
        }
    }

    // Some of the attacker's own addresses, as many as were asked for.
    fn tell_attackers(&mut self, count: u8) -> Result<Option<Octets>, OutOfMemory> {
        let mut told = AddrList::new(self.alloc);
        self.draw_attackers(count, &mut told)?;
        let message = write_peers(self.alloc, told.as_slice())?;
        said(self.alloc, PEER_SHARING, message.as_slice())
    }

    fn draw_attackers(&mut self, count: u8, told: &mut AddrList) -> Result<(), OutOfMemory> {
        for _ in 0..count.min(PEERS_MOST) {
            if let Some(place) = self.draws.place(self.attackers.len()) {
                if let Some(attacker) = self.attackers.get(place) {
                    told.push(address_of(*attacker))?;
                }
            }
        }
        Ok(())
    }
}

// It agrees, and where it was agreed with it holds its slot.
fn answer_in_handshake(alloc: Global, header: Header) -> Result<Option<Octets>, OutOfMemory> {
    if header.side == INITIATOR {
        return said(alloc, HANDSHAKE, &ACCEPTANCE);
    }
    let bytes = frame(alloc, INITIATOR, KEEP_ALIVE, 0, &ALIVE_WITH_FIVE)?;
    Ok(Some(bytes))
}

fn said(alloc: Global, id: u16, payload: &[u8]) -> Result<Option<Octets>, OutOfMemory>
    requires { id < 2 ^ 15 }
{
    let bytes = frame(alloc, RESPONDER, id, 0, payload)?;
    Ok(Some(bytes))
}

fn say_alive(alloc: Global, cookie: &[u8]) -> Result<Option<Octets>, OutOfMemory> {
    let mut reply = Octets::from_slice(alloc, &[0x82, 0x01])?;
    reply.extend_from_slice(cookie)?;
    said(alloc, KEEP_ALIVE, reply.as_slice())
}
