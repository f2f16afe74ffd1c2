ghost use Rattle.std.specs.Prelude.{◌≤◌, length, IfOk, IfSome};
ghost use Rattle.net_base.specs.Limits.{IsWithinLimits};
ghost use Rattle.socket_flow.specs.Asks.{GivesWithinLimits};

use crate::addresses::{addr_of, socket_addr};
use crate::stream::{Accepted, Moved, accept, dialed, is_for_want_of_room, read, write};
use mio::net::{TcpListener, TcpStream};
use mio::{Events, Interest, Poll, Token};
use net_base::{Action, Addr, AddrList, Event, NUMBER_MOST, OutOfMemory};
use node_settings::Config;
use node_world::WorldRefusal;
use rand_core::SeedableRng;
use rand_core::utils::NextWord;
use rand_pcg::Pcg64;
use socket_flow::{Ask, READ_MOST, SocketFlow, Terms};
use std::alloc::Global;
use std::collections::HashMap;
use std::io;
use std::net::{Net, SocketAddr};
use std::time::{Clock, Duration, Instant};

// As many sockets tell in one wait what they are ready for.
const TOLD_MOST: usize = 1024;

const LISTENER: Token = Token(usize::MAX);

// An open world: the sockets of a node, and what is done on them next.
pub(crate) struct Reactor {
    poll: Poll,
    ready: Events,
    listener: TcpListener,
    streams: HashMap<usize, TcpStream>,
    flow: SocketFlow,
    start: Instant,
    generator: Pcg64,
    buffer: Vec<u8>,
}

// By hand, so that it is a function, proved here. Of a derived one each crate that has a world states and proves anew what
// it is to drop every part of it.
impl Drop for Reactor {
    fn drop(self) {
        let Reactor {
            poll: _,
            ready: _,
            listener: _,
            streams: _,
            flow: _,
            start: _,
            generator: _,
            buffer: _,
        } = self;
    }
}

impl Reactor {
    /// Listens at the node's own address. It is moment 0 then.
    pub(crate) fn open<R: Net + Clock>(
        rt: &R,
        alloc: Global,
        config: &Config,
        publics: &AddrList,
    ) -> Result<Reactor, WorldRefusal> {
        let start = told(Instant::now(rt))?;
        let (ready, buffer) = room(alloc)?;
        let flow = SocketFlow::new(alloc, terms_of(config), publics)?;
        let (poll, listener) = listening(rt, config.settings.own)?;
        Ok(Reactor {
            poll,
            ready,
            listener,
            streams: HashMap::new(alloc),
            flow,
            start,
            generator: Pcg64::seed_from_u64(config.seed),
            buffer,
        })
    }

    /// What happens next. It waits until something does.
    pub(crate) fn next<R: Net + Clock>(&mut self, rt: &R) -> Result<Event, WorldRefusal>
        ensures { IfOk result IsWithinLimits }
    {
        for _ in 0..u64::MAX {
            let ask = self.flow.ask()?;
            if let Some(event) = self.answer(rt, ask)? {
                return Ok(event);
            }
        }
        // So many asks never come.
        Ok(Event::Now(0))
    }

    /// Does what the node asks for. What it only tells is passed over.
    pub(crate) fn act(&mut self, action: &Action) -> Result<(), WorldRefusal> {
        Ok(self.flow.act(action)?)
    }

    // Does what is asked for. It may come to an event.
    fn answer<R: Net + Clock>(&mut self, rt: &R, ask: Ask) -> Result<Option<Event>, WorldRefusal>
        requires { GivesWithinLimits ask }
        ensures { IfOk result (λ event. IfSome event IsWithinLimits) }
    {
        match ask {
            Ask::Give(event) => return Ok(Some(event)),
            Ask::Govern => return Ok(Some(Event::Govern(self.generator.next_word()))),
            Ask::Read { key, most } => return Ok(self.read(key, most)?),
            Ask::Write(key) => self.write(key)?,
            Ask::Check(key) => self.check(key)?,
            Ask::Accept => self.accept()?,
            Ask::Connect { key, addr } => self.connect(rt, key, addr)?,
            Ask::Close(key) => {
                self.streams.remove(&key);
            }
            Ask::Wait(time) => self.wait(rt, time)?,
        }
        Ok(None)
    }

    fn read(&mut self, key: usize, most: usize) -> Result<Option<Event>, OutOfMemory>
        ensures { IfOk result (λ event. IfSome event IsWithinLimits) }
    {
        let Some(stream) = self.streams.get_mut(&key) else {
            return Ok(None);
        };
        let room = most.min(READ_MOST).min(self.buffer.len());
        read_on(&mut self.flow, key, stream, &mut self.buffer[..room])
    }

    fn write(&mut self, key: usize) -> Result<(), OutOfMemory> {
        let Some(stream) = self.streams.get_mut(&key) else {
            return Ok(());
        };
        let bytes = self.flow.outgoing(key);
        if bytes.is_empty() {
            return Ok(());
        }
        match write(stream, bytes) {
            Moved::Bytes(count) => self.flow.went(key, count),
            Moved::Nothing => self.flow.takes_no_more(key),
            Moved::Again => self.flow.may_be_ready(key, true),
            Moved::Ended => self.flow.ended(key),
        }
    }

    fn check(&mut self, key: usize) -> Result<(), OutOfMemory> {
        match self.streams.get_mut(&key) {
            Some(stream) => self.flow.dialed(key, dialed(stream)),
            None => Ok(()),
        }
    }

    fn accept(&mut self) -> Result<(), OutOfMemory> {
        match accept(&self.listener) {
            Accepted::Peer(stream, addr) => self.welcome(stream, addr),
            Accepted::Nobody => {
                self.flow.nobody_waits();
                Ok(())
            }
            Accepted::Gone => {
                self.flow.caller_is_gone();
                Ok(())
            }
            Accepted::NoRoom => {
                self.flow.lacks_room();
                Ok(())
            }
        }
    }

    fn welcome(&mut self, stream: TcpStream, addr: SocketAddr) -> Result<(), OutOfMemory> {
        let key = self.flow.accepted(addr_of(addr))?;
        self.watch(key, stream)
    }

    fn connect(&mut self, rt: &impl Net, key: usize, addr: Addr) -> Result<(), OutOfMemory> {
        match TcpStream::connect(rt, socket_addr(addr)) {
            Ok(stream) => self.watch(key, stream),
            Err(error) if is_for_want_of_room(&error) => self.flow.lacks_room_to_dial(key, addr),
            Err(_) => self.flow.ended(key),
        }
    }

    // Has the system tell of a socket. Where it does not, it is closed.
    fn watch(&mut self, key: usize, stream: TcpStream) -> Result<(), OutOfMemory> {
        let mut stream = stream;
        // What is sent is small and waited for. Where the system refuses, it is only slower.
        let _ = stream.set_nodelay(true);
        let interest = Interest::READABLE | Interest::WRITABLE;
        match self
            .poll
            .registry()
            .register(&mut stream, Token(key), interest)
        {
            Ok(()) => {
                self.streams.insert(key, stream)?;
                Ok(())
            }
            Err(_) => self.flow.ended(key),
        }
    }

    // Waits for the sockets, and begins a round of those that are ready.
    fn wait(&mut self, rt: &impl Clock, time: u64) -> Result<(), WorldRefusal> {
        let time = Duration::from_millis(time);
        told(self.poll.poll(&mut self.ready, Some(time)))?;
        self.hear()?;
        let moment = self.moment(rt)?;
        Ok(self.flow.begin_round(moment)?)
    }

    fn hear(&mut self) -> Result<(), OutOfMemory> {
        for event in self.ready.iter() {
            let token = event.token();
            if token == LISTENER {
                self.flow.peer_waits();
            } else {
                self.flow.may_be_ready(token.0, event.is_writable())?;
            }
        }
        Ok(())
    }

    fn moment(&self, rt: &impl Clock) -> Result<u64, WorldRefusal> {
        let passed = told(self.start.elapsed(rt))?;
        Ok(u64::try_from(passed.as_millis()).unwrap_or(NUMBER_MOST))
    }
}

// Reads what comes on a socket, at most as much as there is room for.
fn read_on(
    flow: &mut SocketFlow,
    key: usize,
    stream: &mut TcpStream,
    room: &mut [u8],
) -> Result<Option<Event>, OutOfMemory>
    requires { length room.old ≤ 65536 }
    ensures { IfOk result (λ event. IfSome event IsWithinLimits) }
{
    match read(stream, room) {
        Moved::Bytes(count) => return flow.came(key, &room[..count]),
        Moved::Nothing => {}
        Moved::Again => flow.may_be_ready(key, false)?,
        Moved::Ended => flow.ended(key)?,
    }
    Ok(None)
}

fn terms_of(config: &Config) -> Terms {
    Terms {
        own: config.settings.own,
        announce: config.announce,
        soft: config.settings.soft,
        handshake: config.settings.handshake,
        reply: config.settings.reply,
        tick: config.tick,
        rootttl: config.rootttl,
    }
}

// A socket that listens at an address, and what waits for it.
fn listening<R: Net>(rt: &R, own: Addr) -> Result<(Poll, TcpListener), WorldRefusal> {
    let poll = told(Poll::new(rt))?;
    let mut listener = told(TcpListener::bind(rt, socket_addr(own)))?;
    told(
        poll.registry()
            .register(&mut listener, LISTENER, Interest::READABLE),
    )?;
    Ok((poll, listener))
}

// Memory for what is told in one wait, and for one read.
fn room(alloc: Global) -> Result<(Events, Vec<u8>), OutOfMemory> {
    let ready = Events::with_capacity(alloc, TOLD_MOST)?;
    let buffer = Vec::from_elem(alloc, 0, READ_MOST)?;
    Ok((ready, buffer))
}

// What fails here is a fault of the world.
fn told<T: Drop>(answer: io::Result<T>) -> Result<T, WorldRefusal> {
    answer.map_err(|_| WorldRefusal::Failed)
}
