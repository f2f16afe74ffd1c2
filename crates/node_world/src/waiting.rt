ghost use Rattle.std.specs.Prelude.{◌≡◌, ◌++◌, ◌∷◌, [], All, IfSome, IfNone, OnOk, OnErr};
ghost use Rattle.net_base.specs.Limits.{IsWithinLimits};

use net_base::{Event, EventList, OutOfMemory};
use std::alloc::Global;
use std::collections::VecDeque;
use std::marker::Model;

/// Events that wait, the first to come first. Contracts see the list of them, each within the limits of a trace.
#[derive(Drop)]
pub struct Waiting {
    events: VecDeque<Event>,
}

impl Model for Waiting {
    ghost use Rattle.std.specs.Prelude.{List, All};
    ghost use Rattle.net_base.specs.declared.event.Event.{Event as Happening};
    ghost use Rattle.net_base.specs.Limits.{IsWithinLimits};

    ghost Value = { List Happening };

    ghost view = { λ w. w.events.items };

    ghost invariant = { λ w. All IsWithinLimits w.events.items };
}

impl Waiting {
    /// None waits. Takes no memory.
    pub fn new(alloc: Global) -> Waiting
        ensures { result ≡ [] }
    {
        Waiting {
            events: VecDeque::new(alloc),
        }
    }

    /// The events of a list wait. Takes no memory.
    pub fn of_list(events: EventList) -> Waiting
        requires { All IsWithinLimits events }
        ensures { result ≡ events }
    {
        Waiting {
            events: VecDeque::from(events.into_vec()),
        }
    }

    /// Puts an event behind the others. A refusal changes nothing.
    pub fn push(&mut self, event: Event) -> Result<(), OutOfMemory>
        requires { IsWithinLimits event }
        ensures ok { OnOk result (self.new ≡ self.old ++ event ∷ []) }
        ensures err { OnErr result (self.new ≡ self.old) }
    {
        self.events.push_back(event)?;
        Ok(())
    }

    /// Takes the first out, if any waits.
    pub fn pop(&mut self) -> Option<Event>
        ensures some { IfSome result (λ event. self.old ≡ event ∷ self.new) }
        ensures none { IfNone result ((self.old ≡ []) × (self.new ≡ [])) }
        ensures limits { IfSome result IsWithinLimits }
    {
        self.events.pop_front()
    }
}
