ghost use Rattle.std.specs.Prelude.{◌≡◌, ◌≤◌, ◌<◌, ◌+◌, ◌*◌, ◌↔◌, map, Some, Err, IfOk, OnOk};
ghost use Rattle.conn_state.specs.Use.{facts_at};
ghost use Rattle.laws.specs.Parts.{IsLawfulEvent};
ghost use Rattle.laws.specs.Props.{IsSteady-prop};
ghost use Rattle.laws.specs.Records.{IsLawfulRecord};
ghost use Rattle.laws.specs.Steady.{IsSteady, GivesFew};
ghost use Rattle.machine.specs.Deadlines.{deadlines};
ghost use Rattle.machine.specs.Machine.{start_of, facts_of};
ghost use Rattle.machine.specs.Peers.{peer_at};
ghost use Rattle.machine.specs.Step.{step};
ghost use Rattle.net_base.specs.Bounds.{settings_fault, AreSound};
ghost use Rattle.net_base.specs.declared.settings.Field.{Field};
ghost use Rattle.net_base.specs.Limits.{IsWithinLimits};
ghost use Rattle.node_engine.specs.Tally.{tally_of};
ghost use Rattle.timer_queue.specs.Queue.{IsOrderly};
ghost use Rattle.timer_queue.specs.Timers.{HaveSame};
ghost use Rattle.node_engine.specs.declared.refusal.NewRefusal.TheVariants.{BadSetting};

use crate::{HeldState, NewRefusal, NodeState, Tally};
use net_base::{ActionList, Addr, Cid, Event, Facts, OutOfMemory, Peer, Settings};
use pick_policy::{Picker, RankedPicker};
use std::alloc::Global;
use timer_queue::TimerQueue;

/// A node's engine: the machine's record, how it picks peers, and how many events it took. An event gives out at
/// most 20,000 ids and one job.
#[derive(Drop)]
pub struct Engine {
    pub machine: HeldState,
    picker: Picker,
    ranked: RankedPicker,
    pub events: u64,
    ghost few_ids: { machine.next_id ≤ 20000 * events + 1 },
    ghost few_jobs: { machine.roots.next_job ≤ events + 1 },
    pub ghost steady: { IsSteady machine } by { IsSteady-prop machine },
}

impl Engine {
    /// An engine to which nothing has happened yet. `BadSetting` names the first setting out of its range.
    pub fn new(
        alloc: Global,
        settings: Settings,
        picker: Picker,
        ranked: RankedPicker,
    ) -> Result<Engine, NewRefusal>
        ensures bad_setting { (f : Field) → (result ≡ Err (BadSetting f)) ↔ (settings_fault settings ≡ Some f) }
        ensures start { IfOk result (λ e. e.machine ≡ start_of settings) }
        ensures sound { OnOk result (AreSound settings) }
        ensures none_taken { IfOk result (λ e. e.events ≡ 0) }
        ensures record { IfOk result (λ e. IsLawfulRecord e.machine) }
    {
        if let Some(field) = settings.check() {
            return Err(NewRefusal::BadSetting(field));
        }
        let Ok(machine) = HeldState::new(alloc, NodeState::new(alloc, &settings)) else {
            return Err(NewRefusal::OutOfMemory);
        };
        Ok(Engine {
            machine,
            picker,
            ranked,
            events: 0,
        })
    }

    /// Takes an event, and gives what the node does about it. On a refusal the engine is gone.
    pub fn step(self, event: Event) -> Result<(Engine, ActionList), OutOfMemory>
        requires few { self.events < 1000000 }
        requires within { IsWithinLimits event }
        ensures machine { IfOk result (λ r. r.0.machine ≡ (step self.machine event).machine) }
        ensures actions { IfOk result (λ r. r.1 ≡ (step self.machine event).actions) }
        ensures taken { IfOk result (λ r. r.0.events ≡ self.events + 1) }
        ensures numbers { IfOk result (λ r. GivesFew self.machine r.0.machine) }

        // what holds of the record after the event, and of the moves and actions in it
        ensures record { IfOk result (λ r. IsLawfulRecord r.0.machine) }
        ensures event { IfOk result (λ r. IsLawfulEvent self.machine event) }
    {
        let mut engine = self;
        let none = engine.machine.no_actions();
        let actions = engine.step_in_place(&event, none)?;
        Ok((engine, actions))
    }

    /// The same where engine and event are lent, and the actions stand in the memory of a list that is given. On a refusal
    /// all that the engine knew is gone.
    pub fn step_in_place(
        &mut self,
        event: &Event,
        memory: ActionList,
    ) -> Result<ActionList, OutOfMemory>
        requires few { self.old.events < 1000000 }
        requires within { IsWithinLimits event.now }
        ensures machine { OnOk result (self.new.machine ≡ (step self.old.machine event.now).machine) }
        ensures actions { IfOk result (λ actions. actions ≡ (step self.old.machine event.now).actions) }
        ensures taken { OnOk result (self.new.events ≡ self.old.events + 1) }
        ensures numbers { OnOk result (GivesFew self.old.machine self.new.machine) }
        ensures record { OnOk result (IsLawfulRecord self.new.machine) }
        ensures event { OnOk result (IsLawfulEvent self.old.machine event.now) }
    {
        match self
            .machine
            .handle(event, &self.picker, &self.ranked, memory)
        {
            Ok(actions) => {
                self.events += 1;
                Ok(actions)
            }
            Err(OutOfMemory) => Err(OutOfMemory),
        }
    }

    /// How many events were taken.
    pub fn taken(&self) -> u64
        ensures { result ≡ self.now.events }
    {
        self.events
    }

    /// The moment that the clock showed last.
    pub fn now(&self) -> u64
        ensures { result ≡ self.now.machine.now }
    {
        self.machine.state().moment()
    }

    /// The timers: the deadlines of all connections.
    pub fn timers(&self) -> &TimerQueue
        ensures enrolled { result.now.enrolled ≡ map (λ e. e.facts.cid) self.now.machine.connections }
        ensures timers { HaveSame result.now.timers (deadlines self.now.machine) }
        ensures orderly { IsOrderly result.now }
    {
        self.machine.state().timers()
    }

    /// What is known of the connection with an id. None where there is none.
    pub fn facts(&self, cid: Cid) -> Option<Facts>
        ensures { result ≡ facts_at cid.0 (facts_of self.now.machine) }
    {
        self.machine.state().found(cid)
    }

    /// What is known of the peer with an address. None where there is none.
    pub fn peer(&self, addr: Addr) -> Option<Peer>
        ensures { result ≡ peer_at addr self.now.machine }
    {
        self.machine.state().peer(addr)
    }

    /// How many peers and connections there are.
    pub fn tally(&self) -> Tally
        ensures { result ≡ tally_of self.now.machine }
    {
        self.machine.state().tally()
    }
}
