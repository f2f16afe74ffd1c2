ghost use Rattle.std.specs.Prelude.{◌≡◌, false, [], ◌∷◌, length, IfSome, IfNone, OnOk, OnErr};
ghost use Rattle.socket_flow.specs.Turns.{has_turn, queued};

use net_base::OutOfMemory;
use std::alloc::Global;
use std::collections::{HashSet, VecDeque};
use std::marker::Model;

/// Keys that wait for their turn, each once, the first to come first. Contracts see the list of them.
#[derive(Drop)]
pub(crate) struct TurnQueue {
    queue: VecDeque<usize>,
    // Those that stand in the queue, to be found at once.
    members: HashSet<usize>,
}

impl Model for TurnQueue {
    ghost use Rattle.std.specs.Prelude.{◌≡◌, ℕ, List, eqb};
    ghost use Rattle.std.specs.HashSet.{contains};
    ghost use Rattle.socket_flow.specs.Turns.{IsOnce, has_turn};

    ghost Value = { List ℕ };

    ghost view = { λ q. q.queue.items };

    ghost invariant = { λ q. IsOnce q.queue.items × ((key : ℕ) → contains eqb q.members key ≡ has_turn q.queue.items key) };
}

impl TurnQueue {
    pub(crate) fn new(alloc: Global) -> TurnQueue
        ensures { result ≡ [] }
    {
        TurnQueue {
            queue: VecDeque::new(alloc),
            members: HashSet::new(alloc),
        }
    }

    pub(crate) fn len(&self) -> usize
        ensures { result ≡ length self.now }
    {
        self.queue.len()
    }

    /// The key has a turn behind the others, where it has none yet. A refusal changes nothing.
    pub(crate) fn push(&mut self, key: usize) -> Result<(), OutOfMemory>
        ensures ok { OnOk result (self.new ≡ queued self.old key) }
        ensures err { OnErr result (self.new ≡ self.old) }
    {
        if !self.members.insert(key)? {
            return Ok(());
        }
        let pushed = self.queue.push_back(key);
        if pushed.is_err() {
            self.members.remove(&key);
            return Err(OutOfMemory);
        }
        Ok(())
    }

    /// Whose turn it is, if any waits.
    pub(crate) fn pop(&mut self) -> Option<usize>
        ensures some { IfSome result (λ key. self.old ≡ key ∷ self.new) }
        ensures once { IfSome result (λ key. has_turn self.new key ≡ false) }
        ensures none { IfNone result ((self.old ≡ []) × (self.new ≡ [])) }
    {
        let key = self.queue.pop_front()?;
        self.members.remove(&key);
        Some(key)
    }
}
