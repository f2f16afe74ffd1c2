ghost use Rattle.std.specs.Prelude.{◌≡◌, map};
ghost use Rattle.std.specs.List.{filter_map};
ghost use Rattle.accept_gate.specs.Prune.{choice_of};
ghost use Rattle.connections.specs.Standing.{facts_in};
ghost use Rattle.connections.specs.Timed.{deadlines_in, ids_in};
ghost use Rattle.govern_rules.specs.SortedLinks.{SaySame};
ghost use Rattle.machine.specs.Connections.{candidate_of};
ghost use Rattle.machine.specs.Govern.{link_of};
ghost use Rattle.timer_queue.specs.Queue.{IsOrderly};
ghost use Rattle.timer_queue.specs.Timers.{HaveSame, due_at, least};

use super::Connections;
use govern_rules::LinkList;
use net_base::{Cid, Deadline};
use timer_queue::TimerQueue;

impl Connections {
    /// The timers: the deadlines of all connections.
    pub fn timers(&self) -> &TimerQueue
        ensures enrolled { result.now.enrolled ≡ ids_in self.now }
        ensures timers { HaveSame result.now.timers (deadlines_in self.now) }
        ensures orderly { IsOrderly result.now }
    {
        &self.timers
    }

    /// The least deadline that is due at a moment.
    pub fn due(&self, now: u64) -> Option<Deadline>
        ensures { result ≡ least (due_at now (deadlines_in self.now)) }
    {
        let (at, cid, kind) = self.timers.least()?;
        if at <= now {
            Some(Deadline { at, cid, kind })
        } else {
            None
        }
    }

    /// Which connection goes where there are too many.
    pub fn prune_choice(&self) -> Option<Cid>
        ensures { result ≡ choice_of (filter_map candidate_of (facts_in self.now)) }
    {
        self.kept.order.choice()
    }

    /// What the rules see of the connections, in address order.
    pub fn links(&self) -> LinkList<'_>
        ensures { SaySame result (map link_of self.now.entries) }
    {
        self.links.list()
    }
}
