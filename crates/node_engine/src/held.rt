ghost use Rattle.std.specs.Prelude.{◌≡◌, ◌≤◌, ◌+◌, ◌^◌, [], OnOk, OnErr, IfOk};
ghost use Rattle.laws.specs.Steady.{IsSteady};
ghost use Rattle.machine.specs.Step.{step};
ghost use Rattle.net_base.specs.Limits.{IsWithinLimits};
ghost use Rattle.node_engine.specs.Blank.{blank};

use crate::NodeState;
use net_base::{ActionList, Event, OutOfMemory};
use pick_policy::{Picker, RankedPicker};
use std::alloc::Global;
use std::marker::Model;

/// What a node knows, on the heap, since each step moves the engine. Contracts see the machine's record.
pub struct HeldState {
    alloc: Global,
    state: Box<NodeState>,
}

impl Model for HeldState {
    ghost use Rattle.machine.specs.Machine.{Machine};

    ghost Value = { Machine };

    ghost view = { λ h. h.state.value };
}

// By hand, so that it is a function, proved here. Of a derived one each crate that has an engine states and proves anew
// what it is to drop every part of the state.
impl Drop for HeldState {
    fn drop(self) {
        let HeldState { alloc: _, state: _ } = self;
    }
}

impl HeldState {
    pub(crate) fn new(alloc: Global, state: NodeState) -> Result<HeldState, OutOfMemory>
        ensures { IfOk result (λ held. held ≡ state) }
    {
        match Box::new(alloc, state) {
            Ok(state) => Ok(HeldState { alloc, state }),
            Err(_) => Err(OutOfMemory),
        }
    }

    pub(crate) fn state(&self) -> &NodeState
        ensures { result.now ≡ self.now }
    {
        &self.state
    }

    /// No actions yet. Takes no memory.
    pub(crate) fn no_actions(&self) -> ActionList
        ensures { result ≡ [] }
    {
        ActionList::new(self.alloc)
    }

    /// What happens to the node, and what it does about it. The actions stand in memory that is given. On a refusal all that is
    /// known is given up.
    pub(crate) fn handle(
        &mut self,
        event: &Event,
        picker: &Picker,
        ranked: &RankedPicker,
        memory: ActionList,
    ) -> Result<ActionList, OutOfMemory>
        requires steady { IsSteady self.old }
        requires few_ids { self.old.next_id + 60000 ≤ 2 ^ 48 }
        requires few_jobs { self.old.roots.next_job ≤ 2 ^ 48 }
        requires within { IsWithinLimits event.now }
        ensures machine { OnOk result (self.new ≡ (step self.old event.now).machine) }
        ensures actions { IfOk result (λ actions. actions ≡ (step self.old event.now).actions) }
        ensures given_up { OnErr result (self.new ≡ blank) }
    {
        // the items of that list go, and its memory stays
        let mut items = memory.into_vec();
        items.clear();
        let mut actions = ActionList::from_vec(items);
        match self.state.respond(event, picker, ranked, &mut actions) {
            Ok(()) => Ok(actions),
            Err(OutOfMemory) => {
                self.state.forget();
                Err(OutOfMemory)
            }
        }
    }
}
