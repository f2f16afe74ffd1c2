//! A made town of peers: what happens in it, and what its peers answer.
ghost use Rattle.std.specs.Prelude.{◌≡◌, ◌≤◌, ◌<◌, ◌^◌, true, length, IfOk, OnOk, OnErr};
ghost use Rattle.net_base.specs.Limits.{IsWithinLimits, IsBounded};
ghost use Rattle.net_base.specs.declared.event.Event.TheVariants.{Bytes as BytesOf, Roots as RootsOf};
ghost use Rattle.net_base.specs.declared.event.RootAnswer.TheVariants.{Found as FoundOf};
ghost use Rattle.node_world.specs.Segments.{spoken as spoken_of, heard as heard_of, proposal, begins_asking, alive_reply, question_of as asked};
ghost use Rattle.node_world.specs.Town.{new_town, next_of, later_of, made_of, draw as draw_of, event_of, clock_after, clock_rises, some_connection, answers, dial_ends, peer_told, replies, replies_where, does, is_heeded as heeded, act_of, names, root_peers as town_roots};

mod beginning;
mod draws;
mod peers;
mod question;
mod segments;
mod start;

use crate::waiting::Waiting;
use beginning::{first_locals, first_targets};
use draws::draw;
use mux_segment::{Header, INITIATOR, RESPONDER};
use net_base::protocol::{CHAIN_SYNC, HANDSHAKE, KEEP_ALIVE, PEER_SHARING};
use net_base::{Action, Cid, Event, Job, NUMBER_MOST, OutOfMemory, RootAnswer};
use peers::{root_peers, some_peer};
use question::{Question, question_of};
use rand_core::SeedableRng;
use rand_pcg::Pcg64;
use segments::{
    ACCEPTANCE, ALIVE_WITH_FIVE, NO_INTERSECTION, PROPOSAL, heard, reply_alive, spoken,
};
use start::Start;
use std::alloc::Global;
use std::marker::Model;
use warm_messages::{ALIVE_DONE, write_peers};

// As many milliseconds an answer with root peers serves.
const ROOTS_SERVE: u64 = 3_600_000;

#[derive(Drop)]
pub(crate) struct Town {
    alloc: Global,
    generator: Pcg64,
    start: Start,
    clock: u64,
    queue: Waiting,
    newest: u64,
}

impl Model for Town {
    ghost use Rattle.std.specs.Prelude.{◌≤◌, ◌^◌};
    ghost use Rattle.node_world.specs.Town as town;
    ghost use Rattle.node_world.specs.Start.{first_of};

    ghost Value = { town.Town };

    ghost view = { λ t. record { generator = t.generator; first = first_of t.start; clock = t.clock; queue = t.queue; newest = t.newest } };

    ghost invariant = { λ t. (t.clock ≤ 2 ^ 48) × (1 ≤ t.newest) × (t.newest ≤ 2 ^ 48) };
}

impl Town {
    // The town of a seed, where nothing has happened. Takes no memory.
    pub(crate) fn new(alloc: Global, seed: u64) -> Town
        ensures { result ≡ new_town seed }
    {
        Town {
            alloc,
            generator: Pcg64::seed_from_u64(seed),
            start: Start::Targets,
            clock: 0,
            queue: Waiting::new(alloc),
            newest: 1,
        }
    }

    // What happens next.
    pub(crate) fn next(&mut self) -> Result<Event, OutOfMemory>
        ensures event { IfOk result (λ event. event ≡ (next_of self.old).0) }
        ensures limits { IfOk result IsWithinLimits }
        ensures after { OnOk result (self.new ≡ (next_of self.old).1) }
        ensures unchanged { OnErr result (self.new ≡ self.old) }
    {
        match self.start {
            Start::Targets => {
                self.start = Start::Locals;
                Ok(first_targets())
            }
            Start::Locals => {
                let event = first_locals(self.alloc)?;
                self.start = Start::Over;
                Ok(event)
            }
            Start::Over => self.later(),
        }
    }

    // An answer that waits, and else what is drawn.
    fn later(&mut self) -> Result<Event, OutOfMemory>
        ensures event { IfOk result (λ event. event ≡ (later_of self.old.queue self.old).0) }
        ensures limits { IfOk result IsWithinLimits }
        ensures after { OnOk result (self.new ≡ (later_of self.old.queue self.old).1) }
        ensures unchanged { OnErr result (self.new ≡ self.old) }
    {
        match self.queue.pop() {
            Some(event) => Ok(event),
            None => self.drawn(),
        }
    }

    // What a draw makes.
    fn drawn(&mut self) -> Result<Event, OutOfMemory>
        ensures event { IfOk result (λ event. event ≡ (made_of (draw_of self.old)).0) }
        ensures limits { IfOk result IsWithinLimits }
        ensures after { OnOk result (self.new ≡ (made_of (draw_of self.old)).1) }
        ensures unchanged { OnErr result (self.new ≡ self.old) }
    {
        let (word, generator) = draw(&self.generator)?;
        let event = self.event(word)?;
        self.clock = self.clock_after(word);
        self.generator = generator;
        Ok(event)
    }

    fn clock_after(&self, word: u64) -> u64
        ensures value { result ≡ clock_after word self.now }
        ensures bound { result ≤ 2 ^ 48 }
    {
        match word % 16 {
            0..=6 => self.risen_clock(word / 16),
            _ => self.clock,
        }
    }

    fn risen_clock(&self, rest: u64) -> u64
        ensures value { result ≡ clock_rises rest self.now.clock }
        ensures bound { result ≤ 2 ^ 48 }
    {
        (self.clock + (500 + rest % 4000)).min(NUMBER_MOST)
    }

    fn event(&self, word: u64) -> Result<Event, OutOfMemory>
        ensures event { IfOk result (λ event. event ≡ event_of word self.now) }
        ensures limits { IfOk result IsWithinLimits }
    {
        let rest = word / 16;
        match word % 16 {
            0..=6 => Ok(Event::Now(self.risen_clock(rest))),
            7..=10 => Ok(Event::Govern(word)),
            11 | 12 => Ok(Event::Accepted(some_peer(rest))),
            13 => Ok(Event::Closed(self.some_connection(rest))),
            14 => self.heard_from(rest, &ALIVE_WITH_FIVE),
            _ => self.heard_from(rest, &ALIVE_DONE),
        }
    }

    fn some_connection(&self, number: u64) -> Cid
        ensures value { result ≡ some_connection number self.now }
        ensures bound { IsBounded result.0 }
    {
        Cid(1 + number % self.newest)
    }

    // A peer says something on keep-alive, unasked.
    fn heard_from(&self, number: u64, payload: &[u8]) -> Result<Event, OutOfMemory>
        requires { length payload.now ≤ 65_528 }
        ensures event { IfOk result (λ event. event ≡ BytesOf (some_connection number self.now) (spoken_of 0 8 payload.now)) }
        ensures limits { IfOk result IsWithinLimits }
    {
        let bytes = spoken(self.alloc, INITIATOR, KEEP_ALIVE, payload)?;
        Ok(Event::Bytes(self.some_connection(number), bytes))
    }

    // Answers an action, where it is one that is answered.
    pub(crate) fn act(&mut self, action: &Action) -> Result<(), OutOfMemory>
        ensures after { OnOk result (self.new ≡ act_of self.old action.now) }
        ensures unchanged { OnErr result (self.new ≡ self.old) }
    {
        if is_heeded(action) {
            self.answer(action)
        } else {
            Ok(())
        }
    }

    fn answer(&mut self, action: &Action) -> Result<(), OutOfMemory>
        requires { heeded action.now ≡ true }
        ensures after { OnOk result (self.new ≡ does action.now self.old) }
        ensures unchanged { OnErr result (self.new ≡ self.old) }
    {
        match action {
            Action::Dial(cid, _) => self.end_dial(*cid),
            Action::Admit(cid, _) => self.greet(*cid),
            Action::Send(cid, bytes) => self.reply(*cid, bytes.as_slice()),
            Action::AskRoots(job) => self.tell_roots(*job),
            _ => Ok(()),
        }
    }

    fn end_dial(&mut self, cid: Cid) -> Result<(), OutOfMemory>
        requires { IsBounded cid.0 }
        ensures after { OnOk result (self.new ≡ dial_ends cid (draw_of (names cid self.old))) }
        ensures unchanged { OnErr result (self.new ≡ self.old) }
    {
        let (word, generator) = draw(&self.generator)?;
        self.queue.push(Event::Dialed(cid, word % 8 != 0))?;
        self.generator = generator;
        self.newest = self.newest.max(cid.0);
        Ok(())
    }

    // The peer that was admitted proposes.
    fn greet(&mut self, cid: Cid) -> Result<(), OutOfMemory>
        requires { IsBounded cid.0 }
        ensures after { OnOk result (self.new ≡ answers (BytesOf cid (spoken_of 0 0 proposal)) (names cid self.old)) }
        ensures unchanged { OnErr result (self.new ≡ self.old) }
    {
        self.say(cid, INITIATOR, HANDSHAKE, &PROPOSAL)?;
        self.newest = self.newest.max(cid.0);
        Ok(())
    }

    fn reply(&mut self, cid: Cid, bytes: &[u8]) -> Result<(), OutOfMemory>
        requires cid { IsBounded cid.0 }
        requires size { length bytes.now ≤ 65_536 }
        ensures after { OnOk result (self.new ≡ replies_where cid (heard_of bytes.now) self.old) }
        ensures unchanged { OnErr result (self.new ≡ self.old) }
    {
        match heard(bytes) {
            Some((header, payload)) => self.reply_to(cid, header, payload),
            None => Ok(()),
        }
    }

    fn reply_to(&mut self, cid: Cid, header: Header, payload: &[u8]) -> Result<(), OutOfMemory>
        requires cid { IsBounded cid.0 }
        requires size { length payload.now ≤ 65_528 }
        ensures after { OnOk result (self.new ≡ replies cid (asked (record { header = header; payload = payload.now })) payload.now self.old) }
        ensures unchanged { OnErr result (self.new ≡ self.old) }
    {
        match question_of(header, payload) {
            Question::Proposes => self.say(cid, RESPONDER, HANDSHAKE, &ACCEPTANCE),
            Question::AsksAlive => self.say_alive(cid, payload),
            Question::AsksIntersection => self.say(cid, RESPONDER, CHAIN_SYNC, &NO_INTERSECTION),
            Question::AsksPeers => self.tell_peer(cid),
            Question::AsksNothing => Ok(()),
        }
    }

    fn say_alive(&mut self, cid: Cid, payload: &[u8]) -> Result<(), OutOfMemory>
        requires cid { IsBounded cid.0 }
        requires size { length payload.now ≤ 65_528 }
        requires asks { begins_asking payload.now ≡ true }
        ensures after { OnOk result (self.new ≡ answers (BytesOf cid (spoken_of 1 8 (alive_reply payload.now))) self.old) }
        ensures unchanged { OnErr result (self.new ≡ self.old) }
    {
        let reply = reply_alive(self.alloc, payload)?;
        self.say(cid, RESPONDER, KEEP_ALIVE, reply.as_slice())
    }

    fn tell_peer(&mut self, cid: Cid) -> Result<(), OutOfMemory>
        requires { IsBounded cid.0 }
        ensures after { OnOk result (self.new ≡ peer_told cid (draw_of self.old)) }
        ensures unchanged { OnErr result (self.new ≡ self.old) }
    {
        let (word, generator) = draw(&self.generator)?;
        let message = write_peers(self.alloc, &[some_peer(word)])?;
        self.say(cid, RESPONDER, PEER_SHARING, message.as_slice())?;
        self.generator = generator;
        Ok(())
    }

    fn tell_roots(&mut self, job: Job) -> Result<(), OutOfMemory>
        requires { IsBounded job.0 }
        ensures after { OnOk result (self.new ≡ answers (RootsOf job (FoundOf 3600000 town_roots)) self.old) }
        ensures unchanged { OnErr result (self.new ≡ self.old) }
    {
        let answer = RootAnswer::Found(ROOTS_SERVE, root_peers(self.alloc)?);
        self.queue.push(Event::Roots(job, answer))
    }

    fn say(&mut self, cid: Cid, side: u8, protocol: u16, payload: &[u8]) -> Result<(), OutOfMemory>
        requires cid { IsBounded cid.0 }
        requires side { side ≤ 1 }
        requires protocol { protocol < 2 ^ 15 }
        requires size { length payload.now ≤ 65_528 }
        ensures after { OnOk result (self.new ≡ answers (BytesOf cid (spoken_of side protocol payload.now)) self.old) }
        ensures unchanged { OnErr result (self.new ≡ self.old) }
    {
        let bytes = spoken(self.alloc, side, protocol, payload)?;
        self.queue.push(Event::Bytes(cid, bytes))
    }
}

// An id or a number of at most 2^48, and no more bytes than one read of a socket brings.
fn is_heeded(action: &Action) -> bool
    ensures { result ≡ heeded action.now }
{
    match action {
        Action::Dial(cid, _) | Action::Admit(cid, _) => cid.0 <= NUMBER_MOST,
        Action::Send(cid, bytes) => cid.0 <= NUMBER_MOST && bytes.as_slice().len() <= 65_536,
        Action::AskRoots(job) => job.0 <= NUMBER_MOST,
        _ => false,
    }
}
