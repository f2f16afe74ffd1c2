ghost use Rattle.std.specs.Prelude.{◌≡◌, ◌≤◌, [], ◌∷◌, IfSome, IfNone, OnOk, OnErr};
ghost use Rattle.std.specs.Option.{option_map};
ghost use Rattle.std.specs.List.{slice_get};
ghost use Rattle.socket_flow.specs.Dues.{awaited};

use net_base::OutOfMemory;
use std::alloc::Global;
use std::collections::VecDeque;
use std::marker::Model;

/// Keys that have time until a moment. Each has as long as the others, so they stand in order.
#[derive(Drop)]
pub(crate) struct DueQueue {
    wait: u64,
    waits: VecDeque<(u64, usize)>,
}

impl Model for DueQueue {
    ghost use Rattle.socket_flow.specs.Dues.{Dues};

    ghost Value = { Dues };

    ghost view = { λ q. record { wait = q.wait; waits = q.waits.items } };
}

impl DueQueue {
    /// Each is to have as many milliseconds.
    pub(crate) fn new(alloc: Global, wait: u64) -> DueQueue
        ensures { result ≡ record { wait = wait; waits = [] } }
    {
        DueQueue {
            wait,
            waits: VecDeque::new(alloc),
        }
    }

    /// A key begins to wait. A refusal changes nothing.
    pub(crate) fn push(&mut self, moment: u64, key: usize) -> Result<(), OutOfMemory>
        ensures ok { OnOk result (self.new ≡ awaited self.old moment key) }
        ensures err { OnErr result (self.new ≡ self.old) }
    {
        self.waits
            .push_back((moment.saturating_add(self.wait), key))?;
        Ok(())
    }

    /// Until when the first has time.
    pub(crate) fn first_until(&self) -> Option<u64>
        ensures { result ≡ option_map (λ first. first.0) (slice_get self.now.waits 0) }
    {
        let (until, _) = self.waits.front()?;
        Some(*until)
    }

    /// Takes out the one that began to wait first.
    pub(crate) fn pop(&mut self) -> Option<usize>
        ensures wait { self.new.wait ≡ self.old.wait }
        ensures some { IfSome result (λ key. option_map (λ first. first.1) (slice_get self.old.waits 0) ≡ Some key) }
        ensures none { IfNone result ((self.old.waits ≡ []) × (self.new.waits ≡ [])) }
    {
        let (_, key) = self.waits.pop_front()?;
        Some(key)
    }

    /// Takes out the first whose time is over at a moment.
    pub(crate) fn pop_due(&mut self, moment: u64) -> Option<usize> {
        match self.first_until() {
            Some(until) if until <= moment => self.pop(),
            _ => None,
        }
    }
}
