ghost use Rattle.std.specs.Prelude.{◌≡◌, ◌+◌, ◌<◌, IfOk, OnOk};
ghost use Rattle.net_base.specs.Limits.{IsWithinLimits};
ghost use Rattle.node_world.specs.Town.{next_of, act_of};
ghost use Rattle.node_engine.specs.Tally.{tally_of};
ghost use Rattle.world_drive.specs.Drill.{Drilled, acted, turned, drilled, counts_of};
ghost use Rattle.world_drive.specs.DrillCourse.{StandsAt, counts_joined};

use crate::tallies::{Counts, Tallies};
use engine_start::{Pickers, first_engine};
use net_base::{Action, ActionList, Addr, Event, Ip, OutOfMemory};
use node_engine::Engine;
use node_world::{Next, TownWorld, World, WorldRefusal};
use std::alloc::Global;
use std::mem;
use trace_meaning::settings_of;
use trace_text::HeadLine;

// Where the town's node listens: 10.0.1.1:3001.
const OWN: Addr = Addr {
    ip: Ip::V4(167_772_417),
    port: 3001,
};

/// A drill on its way.
#[derive(Drop)]
pub(crate) struct Course {
    pub world: TownWorld,
    pub engine: Engine,
    pub counts: Counts,
    alloc: Global,
    // that of the actions of the last event
    memory: ActionList,
}

impl Course {
    /// The town of a seed, where nothing has happened.
    pub(crate) fn new(alloc: Global, seed: u64, pickers: Pickers) -> Result<Course, OutOfMemory>
        ensures stands { IfOk result (λ c. StandsAt c.world.town c.engine.machine c.counts (drilled seed 0)) }
        ensures events { IfOk result (λ c. c.engine.events ≡ 0) }
    {
        let settings = settings_of(&[HeadLine::Trace(1), HeadLine::Own(OWN)]);
        Ok(Course {
            world: TownWorld::new(alloc, seed),
            engine: first_engine(alloc, settings, pickers)?,
            counts: Counts::none(),
            alloc,
            memory: ActionList::new(alloc),
        })
    }

    /// One event of the town, and what the machine does about it.
    pub(crate) fn turn(&mut self) -> Result<(), OutOfMemory>
        requires few { self.old.engine.events < 1_000_000 }
        ensures turned { OnOk result ((d : Drilled) → StandsAt self.old.world.town self.old.engine.machine self.old.counts d
            → StandsAt self.new.world.town self.new.engine.machine self.new.counts (turned d)) }
        ensures events { OnOk result (self.new.engine.events ≡ self.old.engine.events + 1) }
    {
        let event = next_event(&mut self.world)?;
        let memory = mem::replace(&mut self.memory, ActionList::new(self.alloc));
        let actions = self.engine.step_in_place(&event, memory)?;
        act_all(actions.as_slice(), &mut self.world, &mut self.counts)?;
        self.memory = actions;
        Ok(())
    }

    /// What is told of it.
    pub(crate) fn tallies(&self) -> Tallies
        ensures { result ≡ record {
          events = self.now.engine.events;
          counts = self.now.counts;
          established = (tally_of self.now.engine.machine).established;
          active = (tally_of self.now.engine.machine).active;
        } }
    {
        let tally = self.engine.tally();
        Tallies {
            events: self.engine.events,
            counts: self.counts,
            established: tally.established,
            active: tally.active,
        }
    }
}

// The town's next event.
fn next_event(world: &mut TownWorld) -> Result<Event, OutOfMemory>
    ensures event { IfOk result (λ event. event ≡ (next_of world.old.town).0) }
    ensures town { OnOk result (world.new.town ≡ (next_of world.old.town).1) }
    ensures within { IfOk result IsWithinLimits }
{
    match world.next() {
        Ok(Next::Event(event)) => Ok(event),
        Ok(Next::End) => unreachable!(),
        Err(refusal) => Err(wanting(refusal)),
    }
}

// Hands each action to the town, and counts it.
fn act_all(
    actions: &[Action],
    world: &mut TownWorld,
    counts: &mut Counts,
) -> Result<(), OutOfMemory>
    ensures town { OnOk result (world.new.town ≡ acted world.old.town actions.now) }
    ensures counted { OnOk result (counts.new ≡ counts_joined counts.old (counts_of actions.now)) }
{
    for action in actions {
        act(action, world)?;
        *counts = counts.and(action)?;
    }
    Ok(())
}

// Hands an action to the town.
fn act(action: &Action, world: &mut TownWorld) -> Result<(), OutOfMemory>
    ensures { OnOk result (world.new.town ≡ act_of world.old.town action.now) }
{
    match world.act(action) {
        Ok(()) => Ok(()),
        Err(refusal) => Err(wanting(refusal)),
    }
}

// The town refuses for want of memory alone.
fn wanting(_: WorldRefusal) -> OutOfMemory {
    OutOfMemory
}
