//! Sockets in memory, whose peers do what random words say, and a node that answers them. What a peer says and hears, and
//! what the node is told and sends, are bytes that count up from a number of the connection's own.

use super::sockets::{Happening, accepts, comes, does, happens, local, new_flow, next_ask};
use net_base::{Action, Addr, Away, Cid, Event, Octets, OutOfMemory};
use rand_core::SeedableRng;
use rand_core::utils::NextWord;
use rand_pcg::Pcg64;
use socket_flow::{Ask, SocketFlow, Terms};
use std::alloc::Global;
use std::process::Abort;
use std::test::Fail;

// As many asks are answered.
const ASKS: u64 = 15_000;

const PEERS: u64 = 50;

// The other end of a socket.
#[derive(Drop)]
struct Peer {
    port: u16,
    // How many bytes of its address it has said, and how many it says behind it.
    announced: usize,
    left: u64,
    says: u8,
    hears: u8,
    told: u8,
    sends: u8,
    is_over: bool,
}

// A peer that says so much behind its address, or nothing of that.
fn new_peer(port: u16, left: u64, announces: bool) -> Peer {
    let [_, number] = port.to_be_bytes();
    Peer {
        port,
        announced: if announces { 0 } else { 7 },
        left,
        says: number,
        hears: number.wrapping_mul(7),
        told: number,
        sends: number.wrapping_mul(7),
        is_over: false,
    }
}

// What a peer says next.
fn next_byte(peer: &mut Peer) -> Option<u8> {
    let [high, low] = peer.port.to_be_bytes();
    if let Some(byte) = [4, 127, 0, 0, 1, high, low].get(peer.announced).copied() {
        peer.announced = peer.announced.saturating_add(1);
        return Some(byte);
    }
    if peer.left == 0 {
        return None;
    }
    peer.left -= 1;
    let byte = peer.says;
    peer.says = byte.wrapping_add(1);
    Some(byte)
}

// Whether bytes count up from a number, and what comes behind them.
fn counts_up(bytes: &[u8], from: u8) -> (bool, u8) {
    let mut next = from;
    let mut holds = true;
    for byte in bytes {
        holds = holds && *byte == next;
        next = next.wrapping_add(1);
    }
    (holds, next)
}

// Whether what goes out to a peer goes on where the last ended.
fn hears(peer: &mut Peer, bytes: &[u8]) -> bool {
    let (holds, next) = counts_up(bytes, peer.hears);
    peer.hears = next;
    holds
}

// Whether what the node is told of a peer goes on where the last ended.
fn is_told(peer: &mut Peer, bytes: &[u8]) -> bool {
    let (holds, next) = counts_up(bytes, peer.told);
    peer.told = next;
    holds && !peer.is_over
}

// Whether a connection ends once, when all was told that its peer said.
fn ends(peer: &mut Peer) -> bool {
    let holds = !peer.is_over && peer.left == 0 && peer.told == peer.says;
    peer.is_over = true;
    holds
}

#[derive(Drop)]
struct FlowWorld {
    alloc: Global,
    flow: SocketFlow,
    words: Pcg64,
    // By the keys of their sockets.
    peers: Vec<Peer>,
    announces: bool,
    coming: u64,
    moment: u64,
    // How often something was not as it is to be.
    wrong: u64,
    // How many bytes the node was told, how many went out, and how many connections ended.
    told: u64,
    went: u64,
    ended: u64,
}

fn terms(announce: bool) -> Terms {
    Terms {
        own: local(3001),
        announce,
        soft: 64,
        handshake: 1_000_000,
        reply: 1_000_000,
        tick: 1000,
        rootttl: 1000,
    }
}

fn opened(alloc: Global, seed: u64, announce: bool) -> Result<FlowWorld, OutOfMemory> {
    let flow = new_flow(alloc, terms(announce))?;
    Ok(FlowWorld {
        alloc,
        flow,
        words: Pcg64::seed_from_u64(seed),
        peers: Vec::new(alloc),
        announces: announce,
        coming: PEERS,
        moment: 0,
        wrong: 0,
        told: 0,
        went: 0,
        ended: 0,
    })
}

// At most so much: a random number.
fn below(world: &mut FlowWorld, most: u64) -> u64 {
    world.words.next_word() % most.max(1)
}

fn expect(world: &mut FlowWorld, holds: bool) {
    if !holds {
        world.wrong = world.wrong.saturating_add(1);
    }
}

fn accept(world: &mut FlowWorld) -> Result<(), OutOfMemory> {
    if world.coming == 0 || below(world, 4) == 0 {
        return happens(&mut world.flow, Happening::NobodyWaits);
    }
    let port = u16::try_from(PEERS.saturating_sub(world.coming)).unwrap_or(0);
    world.coming = world.coming.saturating_sub(1);
    let left = below(world, 2000);
    world.peers.push(new_peer(port, left, world.announces))?;
    let key = accepts(&mut world.flow, local(port))?;
    // Keys count up, so the port of each is its key.
    expect(world, key == usize::from(port));
    Ok(())
}

// A peer says so many bytes, or all that it has to say.
fn say(peer: &mut Peer, count: usize, bytes: &mut Vec<u8>) -> Result<(), OutOfMemory> {
    for _ in 0..count {
        let Some(byte) = next_byte(peer) else {
            break;
        };
        bytes.push(byte)?;
    }
    Ok(())
}

// What a peer says at once, at most so much.
fn said(world: &mut FlowWorld, key: usize, most: usize) -> Result<Vec<u8>, OutOfMemory> {
    let count = most.min(1 + (below(world, 200) % 200) as usize);
    let mut bytes = Vec::new(world.alloc);
    if let Some(peer) = world.peers.get_mut(key) {
        say(peer, count, &mut bytes)?;
    }
    Ok(bytes)
}

// A peer says no more.
fn fall_silent(peers: &mut Vec<Peer>, key: usize) {
    if let Some(peer) = peers.get_mut(key) {
        peer.left = 0;
    }
}

// The socket fails.
fn is_lost(world: &mut FlowWorld, key: usize) -> Result<(), OutOfMemory> {
    fall_silent(&mut world.peers, key);
    happens(&mut world.flow, Happening::Ends(key))
}

fn read(world: &mut FlowWorld, key: usize, most: usize) -> Result<(), OutOfMemory> {
    if below(world, 4) == 0 {
        return Ok(());
    }
    if below(world, 500) == 0 {
        return is_lost(world, key);
    }
    let bytes = said(world, key, most)?;
    match comes(&mut world.flow, key, &bytes)? {
        Some(event) => tell(world, &event),
        None => Ok(()),
    }
}

// What goes out at once, at most so many bytes.
fn goes_out(world: &mut FlowWorld, key: usize, most: usize) -> usize {
    let bytes = world.flow.outgoing(key);
    let count = bytes.len().min(most);
    let Some(peer) = world.peers.get_mut(key) else {
        return 0;
    };
    let holds = hears(peer, &bytes[..count]);
    world.went = world.went.saturating_add(count as u64);
    expect(world, holds);
    count
}

fn write(world: &mut FlowWorld, key: usize) -> Result<(), OutOfMemory> {
    if below(world, 5) == 0 {
        return happens(&mut world.flow, Happening::TakesNoMore(key));
    }
    let most = 1 + (below(world, 60) % 60) as usize;
    let count = goes_out(world, key, most);
    happens(&mut world.flow, Happening::Takes(key, count))
}

fn tell(world: &mut FlowWorld, event: &Event) -> Result<(), OutOfMemory> {
    match event {
        Event::Accepted(addr) => meet(world, *addr),
        Event::Bytes(cid, bytes) => hear(world, *cid, bytes.as_slice()),
        Event::Closed(cid) => {
            is_over(world, *cid);
            Ok(())
        }
        _ => Ok(()),
    }
}

// A peer is turned away now and then, and else let in.
fn meet(world: &mut FlowWorld, addr: Addr) -> Result<(), OutOfMemory> {
    expect(world, addr.ip == local(0).ip);
    let action = if below(world, 8) == 0 {
        Action::Turnaway(Away::Full)
    } else {
        Action::Admit(Cid(1 + u64::from(addr.port)), addr)
    };
    does(&mut world.flow, &action)
}

// The key of the socket that is a connection.
fn key_of(cid: Cid) -> usize {
    usize::try_from(cid.0.saturating_sub(1)).unwrap_or(0)
}

// So many bytes, which go on where the node's last answer ended.
fn next_answer(alloc: Global, peer: &mut Peer, count: usize) -> Result<Octets, OutOfMemory> {
    let mut answer = Octets::new(alloc);
    for _ in 0..count {
        answer.push(peer.sends)?;
        peer.sends = peer.sends.wrapping_add(1);
    }
    Ok(answer)
}

// What the node answers to bytes that it is told, which are judged.
fn answer_to(
    world: &mut FlowWorld,
    cid: Cid,
    bytes: &[u8],
    count: usize,
) -> Result<Octets, OutOfMemory> {
    let Some(peer) = world.peers.get_mut(key_of(cid)) else {
        expect(world, false);
        return Ok(Octets::new(world.alloc));
    };
    let holds = is_told(peer, bytes);
    let answer = next_answer(world.alloc, peer, count)?;
    expect(world, holds);
    Ok(answer)
}

// Bytes that the node is told go on where the last ended, and it answers with bytes that do.
fn hear(world: &mut FlowWorld, cid: Cid, bytes: &[u8]) -> Result<(), OutOfMemory> {
    let count = (below(world, 300) % 300) as usize;
    world.told = world.told.saturating_add(bytes.len() as u64);
    let answer = answer_to(world, cid, bytes, count)?;
    does(&mut world.flow, &Action::Send(cid, answer))
}

fn is_over(world: &mut FlowWorld, cid: Cid) {
    let holds = match world.peers.get_mut(key_of(cid)) {
        Some(peer) => ends(peer),
        None => false,
    };
    world.ended = world.ended.saturating_add(1);
    expect(world, holds);
}

// Some sockets may have become ready, for bytes to be read or written.
fn wake(world: &mut FlowWorld) -> Result<(), OutOfMemory> {
    for key in 0..PEERS as usize {
        let word = below(world, 4);
        if word < 2 {
            happens(&mut world.flow, Happening::MayBeReady(key, word == 0))?;
        }
    }
    Ok(())
}

fn wait(world: &mut FlowWorld) -> Result<(), OutOfMemory> {
    wake(world)?;
    happens(&mut world.flow, Happening::PeerWaits)?;
    let passed = below(world, 50);
    world.moment = world.moment.saturating_add(passed);
    happens(&mut world.flow, Happening::RoundBegins(world.moment))
}

fn answer(world: &mut FlowWorld, ask: &Ask) -> Result<(), OutOfMemory> {
    match ask {
        Ask::Accept => accept(world),
        Ask::Read { key, most } => read(world, *key, *most),
        Ask::Write(key) => write(world, *key),
        Ask::Give(event) => tell(world, event),
        Ask::Wait(_) => wait(world),
        Ask::Connect { key, .. } | Ask::Check(key) => {
            happens(&mut world.flow, Happening::Ends(*key))
        }
        Ask::Close(_) | Ask::Govern => Ok(()),
    }
}

fn run(world: &mut FlowWorld) -> Result<(), OutOfMemory> {
    for _ in 0..ASKS {
        let ask = next_ask(&mut world.flow)?;
        answer(world, &ask)?;
    }
    Ok(())
}

// Whether nothing went wrong, and much happened.
fn is_well(world: &FlowWorld) -> bool {
    world.wrong == 0 && world.ended > 30 && world.told > 10_000 && world.went > 10_000
}

fn goes_well(world: &mut FlowWorld) -> Result<bool, OutOfMemory> {
    run(world)?;
    Ok(is_well(world))
}

fn expect_order(rt: &impl Abort, alloc: Global, seed: u64, announce: bool) -> Result<(), Fail> {
    let mut world = opened(alloc, seed, announce)?;
    let is_well = goes_well(&mut world)?;
    assert!(rt; is_well);
    Ok(())
}

#[test]
fn bytes_come_and_go_in_their_order(rt: HostRuntime) -> Result<(), Fail> {
    for seed in 0..2 {
        expect_order(&rt, rt.alloc(), seed, seed % 2 == 0)?;
    }
    Ok(())
}
