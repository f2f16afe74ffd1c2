ghost use Rattle.std.specs.Prelude.{◌≡◌, ◌+◌, ◌<◌, ℕ, IfOk, OnOk};
ghost use Rattle.machine.specs.Machine.{Machine, start_of};
ghost use Rattle.machine.specs.Step.{step};
ghost use Rattle.net_base.specs.Bounds.{AreSound};
ghost use Rattle.net_base.specs.Limits.{IsWithinLimits};

use net_base::{ActionList, Event, OutOfMemory, Settings};
use std::alloc::Global;

/// What steps as the machine does: by an event at a time, with the actions for it. Once memory is wanting nothing more may
/// be asked.
pub trait Stepper: Drop {
    /// What it picks by, beside its settings.
    type Means: Drop;

    /// The record that it keeps.
    ghost machine: { Self → Machine };

    /// How many events it took.
    ghost events: { Self → ℕ };

    /// One to which nothing has happened yet.
    fn begin(alloc: Global, settings: Settings, means: Self::Means) -> Result<Self, OutOfMemory>
        requires { AreSound settings }
        ensures machine { IfOk result (λ s. machine s ≡ start_of settings) }
        ensures events { IfOk result (λ s. events s ≡ 0) };

    /// Takes an event, and gives what the machine does about it, in the memory of a list that is given.
    fn step(&mut self, event: &Event, memory: ActionList) -> Result<ActionList, OutOfMemory>
        requires few { events self.old < 1000000 }
        requires within { IsWithinLimits event.now }
        ensures machine { OnOk result (machine self.new ≡ (step (machine self.old) event.now).machine) }
        ensures events { OnOk result (events self.new ≡ events self.old + 1) }
        ensures actions { IfOk result (λ actions. actions ≡ (step (machine self.old) event.now).actions) };

    /// How many events were taken.
    fn taken(&self) -> u64
        ensures { result ≡ events self.now };
}
