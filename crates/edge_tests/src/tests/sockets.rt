//! A flow over sockets without the sockets, and each thing that is done to it.

use net_base::{Action, Addr, AddrList, Event, Ip, OutOfMemory};
use socket_flow::{Ask, Dialed, SocketFlow, Terms};
use std::alloc::Global;

// One thing that happens on the sockets, by key.
#[derive(Clone, Copy)]
pub(super) enum Happening {
    RoundBegins(u64),
    PeerWaits,
    NobodyWaits,
    // So many peers that waited are gone again.
    CallersAreGone(u64),
    LacksRoom,
    LacksRoomToDial(usize, Addr),
    // Something may be done on a socket, bytes be written where that is told.
    MayBeReady(usize, bool),
    Takes(usize, usize),
    TakesNoMore(usize),
    Ends(usize),
    DialComesTo(usize, Dialed),
}

pub(super) fn local(port: u16) -> Addr {
    Addr {
        ip: Ip::V4(0x7f00_0001),
        port,
    }
}

pub(super) fn new_flow(alloc: Global, terms: Terms) -> Result<SocketFlow, OutOfMemory> {
    SocketFlow::new(alloc, terms, &AddrList::new(alloc))
}

pub(super) fn happens(flow: &mut SocketFlow, happening: Happening) -> Result<(), OutOfMemory> {
    match happening {
        Happening::RoundBegins(moment) => flow.begin_round(moment),
        Happening::PeerWaits => {
            flow.peer_waits();
            Ok(())
        }
        Happening::NobodyWaits => {
            flow.nobody_waits();
            Ok(())
        }
        Happening::CallersAreGone(count) => {
            for _ in 0..count {
                flow.caller_is_gone();
            }
            Ok(())
        }
        Happening::LacksRoom => {
            flow.lacks_room();
            Ok(())
        }
        Happening::LacksRoomToDial(key, addr) => flow.lacks_room_to_dial(key, addr),
        Happening::MayBeReady(key, writable) => flow.may_be_ready(key, writable),
        Happening::Takes(key, count) => flow.went(key, count),
        Happening::TakesNoMore(key) => flow.takes_no_more(key),
        Happening::Ends(key) => flow.ended(key),
        Happening::DialComesTo(key, dialed) => flow.dialed(key, dialed),
    }
}

// A peer has connected. Answers the key of its socket.
pub(super) fn accepts(flow: &mut SocketFlow, addr: Addr) -> Result<usize, OutOfMemory> {
    flow.accepted(addr)
}

// These bytes come, or none and the socket has ended. Answers what is told of them.
pub(super) fn comes(
    flow: &mut SocketFlow,
    key: usize,
    bytes: &[u8],
) -> Result<Option<Event>, OutOfMemory> {
    if bytes.is_empty() || bytes.len() > 65_536 {
        happens(flow, Happening::Ends(key))?;
        return Ok(None);
    }
    flow.came(key, bytes)
}

// The node does something.
pub(super) fn does(flow: &mut SocketFlow, action: &Action) -> Result<(), OutOfMemory> {
    flow.act(action)
}

// What is asked for next.
pub(super) fn next_ask(flow: &mut SocketFlow) -> Result<Ask, OutOfMemory> {
    flow.ask()
}
