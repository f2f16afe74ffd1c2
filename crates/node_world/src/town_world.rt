ghost use Rattle.std.specs.Prelude.{◌≡◌, [], true, false, None, Some, IfOk, OnOk, OnErr};
ghost use Rattle.node_world.specs.declared.next.Next.TheVariants.{Event as Happens};
ghost use Rattle.node_world.specs.Meanings.{taken_after, done_after, GivesWithinLimits, HasCause};
ghost use Rattle.node_world.specs.Town.{new_town, next_of, act_of};

use crate::history::History;
use crate::town::Town;
use crate::{Next, World, WorldRefusal};
use net_base::{Action, AddrList, Event};
use node_settings::Config;
use std::alloc::Global;
use std::marker::Model;

/// A made town of sixty peers. What happens in it depends on its seed and on the actions that it is asked for. It is open
/// from the start, never ends and never fails.
#[derive(Drop)]
pub struct TownWorld {
    town: Town,
    taken: History<Event>,
    done: History<Action>,
}

impl Model for TownWorld {
    ghost use Rattle.node_world.specs.Town.{LivedTown};

    ghost Value = { LivedTown };

    ghost view = { λ w. record { town = w.town; taken = w.taken; done = w.done } };
}

impl TownWorld {
    /// The town of a seed: nothing was taken from it and nothing done. Takes no memory.
    pub fn new(alloc: Global, seed: u64) -> TownWorld
        ensures { result ≡ record { town = new_town seed; taken = []; done = [] } }
    {
        TownWorld {
            town: Town::new(alloc, seed),
            taken: History::new(),
            done: History::new(),
        }
    }
}

impl World for TownWorld {
    ghost is_open = { λ _. true };

    ghost has_ended = { λ _. false };

    ghost faults = { λ _. 0 };

    ghost opening = { λ _. None };

    ghost taken = { λ w. Some w.taken };

    ghost done = { λ w. Some w.done };

    /// The town is open already, and stays as it is.
    fn open(&mut self, _config: &Config, _publics: &AddrList) -> Result<(), WorldRefusal>
        ensures answer { result ≡ Ok tt }
        ensures unchanged { self.new ≡ self.old }
    {
        Ok(())
    }

    fn next(&mut self) -> Result<Next, WorldRefusal>
        ensures event { IfOk result (λ next. next ≡ Happens (next_of self.old.town).0) }
        ensures town { OnOk result (self.new.town ≡ (next_of self.old.town).1) }
        ensures unchanged { OnErr result (self.new ≡ self.old) }
        ensures limits { GivesWithinLimits result }
        ensures taken { Some self.new.taken ≡ taken_after (Some self.old.taken) result }
        ensures done { self.new.done ≡ self.old.done }
        ensures cause { HasCause 0 0 result }
    {
        let event = self.town.next()?;
        self.taken = self.taken.and(&event);
        Ok(Next::Event(event))
    }

    fn act(&mut self, action: &Action) -> Result<(), WorldRefusal>
        ensures town { OnOk result (self.new.town ≡ act_of self.old.town action.now) }
        ensures unchanged { OnErr result (self.new ≡ self.old) }
        ensures taken { self.new.taken ≡ self.old.taken }
        ensures done { Some self.new.done ≡ done_after (Some self.old.done) action.now result }
        ensures cause { HasCause 0 0 result }
    {
        self.town.act(action)?;
        self.done = self.done.and(action);
        Ok(())
    }
}
