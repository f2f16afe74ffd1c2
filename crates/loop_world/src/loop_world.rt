ghost use Rattle.std.specs.Prelude.{◌≡◌, true, false, None, is_ok};
ghost use Rattle.node_world.specs.Meanings.{GivesWithinLimits, HasCause, says_end};

use crate::reactor::Reactor;
use net_base::{Action, AddrList};
use node_settings::Config;
use node_world::{Next, World, WorldRefusal};
use std::alloc::Global;
use std::marker::Model;
use std::net::Net;
use std::time::Clock;

/// A world on sockets: it listens at the node's own address from when it is opened, and dials. A socket that fails is
/// an event; only listening, what waits for the sockets, and the clock can fail. It never ends. What comes and goes on its
/// sockets is not told: contracts see whether it is open, and the count of its faults.
#[derive(Drop)]
pub struct LoopWorld<R> {
    rt: R,
    alloc: Global,
    reactor: Option<Reactor>,
    faults: u64,
}

impl<R> Model for LoopWorld<R> {
    ghost use Rattle.std.specs.Prelude.{is_some};
    ghost use Rattle.loop_world.specs.Sockets.{SocketWorld};

    ghost Value = { SocketWorld };

    ghost view = { λ w. record { is_open = is_some w.reactor; faults = w.faults } };
}

impl<R> LoopWorld<R> {
    /// It is not open. Nothing listens and no call failed yet.
    pub fn new(alloc: Global, rt: R) -> LoopWorld<R>
        ensures { result ≡ record { is_open = false; faults = 0 } }
    {
        LoopWorld {
            rt,
            alloc,
            reactor: None,
            faults: 0,
        }
    }

    // Counts a call that failed.
    fn counted<T>(&mut self, answer: Result<T, WorldRefusal>) -> Result<T, WorldRefusal>
        ensures answer { result ≡ answer }
        ensures open { self.new.is_open ≡ self.old.is_open }
        ensures cause { HasCause self.old.faults self.new.faults result }
    {
        if matches!(answer, Err(WorldRefusal::Failed)) {
            self.faults = self.faults.saturating_add(1);
        }
        answer
    }
}

impl<R: Net + Clock> World for LoopWorld<R> {
    ghost is_open = { λ w. w.is_open };

    ghost has_ended = { λ _. false };

    ghost faults = { λ w. w.faults };

    ghost opening = { λ _. None };

    ghost taken = { λ _. None };

    ghost done = { λ _. None };

    fn open(&mut self, config: &Config, publics: &AddrList) -> Result<(), WorldRefusal>
        requires { self.old.is_open ≡ false }
        ensures open { self.new.is_open ≡ is_ok result }
        ensures cause { HasCause self.old.faults self.new.faults result }
    {
        let opened = Reactor::open(&self.rt, self.alloc, config, publics);
        self.reactor = Some(self.counted(opened)?);
        Ok(())
    }

    fn next(&mut self) -> Result<Next, WorldRefusal>
        requires { self.old.is_open ≡ true }
        ensures open { self.new.is_open ≡ true }
        ensures limits { GivesWithinLimits result }
        ensures never_ends { says_end result ≡ false }
        ensures cause { HasCause self.old.faults self.new.faults result }
    {
        let Some(reactor) = &mut self.reactor else {
            unreachable!()
        };
        let event = reactor.next(&self.rt);
        Ok(Next::Event(self.counted(event)?))
    }

    fn act(&mut self, action: &Action) -> Result<(), WorldRefusal>
        requires { self.old.is_open ≡ true }
        ensures open { self.new.is_open ≡ true }
        ensures cause { HasCause self.old.faults self.new.faults result }
    {
        let Some(reactor) = &mut self.reactor else {
            unreachable!()
        };
        let done = reactor.act(action);
        self.counted(done)
    }
}
