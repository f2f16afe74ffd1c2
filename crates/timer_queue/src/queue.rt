ghost use Rattle.std.specs.Prelude.{◌≡◌, ◌<◌, ◌↔◌, ◌++◌, true, false, [], All, IsTrue, IsNone, OnOk, OnErr};
ghost use Rattle.timer_queue.specs.Rows.{AreMomentsOf, timers_of};
ghost use Rattle.timer_queue.specs.Timers.{timer, least as least_of, HaveSame, without_cid};
ghost use Rattle.timer_queue.specs.Queue.{IsOrderly, empty_queue, is_enrolled as enrolls, with_enrolled, with_timer, without_timer, without_connection, least_due, without_fired, told};

use crate::kept::Kept;
use crate::moments::Moments;
use net_base::{Cid, Deadline, Kind, OutOfMemory};
use std::alloc::Global;
use std::marker::Model;

/// The timers of a node's connections. A connection that is enrolled has room for one timer of each kind, so that its timers
/// can be set without taking memory.
///
/// Moments are in milliseconds. Timers fire in order of their moment, then the id of the connection, then their kind.
#[derive(Drop)]
pub struct TimerQueue {
    kept: Kept,
}

impl Model for TimerQueue {
    ghost use Rattle.timer_queue.specs.Queue.{Queue};
    ghost use Rattle.timer_queue.specs.Kept.{IsKept, queue_of};

    ghost Value = { Queue };

    ghost view = { λ q. queue_of q.kept };

    ghost invariant = { λ q. IsKept q.kept };
}

#[tactic(auto, using(crate::proofs::Orderly::orderly_when_kept))]
impl TimerQueue {
    /// No connection is enrolled, and no timer is set. Takes no memory.
    pub fn new(alloc: Global) -> TimerQueue
        ensures empty { result ≡ empty_queue }
        ensures orderly { IsOrderly result }
    {
        TimerQueue {
            kept: Kept::new(alloc),
        }
    }

    /// Whether a connection is enrolled.
    pub fn is_enrolled(&self, cid: Cid) -> bool
        ensures { result ≡ enrolls cid self.now }
    {
        self.kept.has(cid)
    }

    /// The moments of a connection's timers, by their kinds.
    pub fn moments(&self, cid: Cid) -> Moments
        ensures { AreMomentsOf cid result self.now.timers }
    {
        self.kept.moments(cid)
    }

    /// Makes room for a connection and its timers, and where there is none for at least half as many again. No other call takes memory.
    pub fn enroll(&mut self, cid: Cid) -> Result<(), OutOfMemory>
        ensures ok { OnOk result (self.new ≡ with_enrolled cid self.old) }
        ensures err { OnErr result (self.new ≡ self.old) }
        ensures only_new { OnErr result (enrolls cid self.old ≡ false) }
        ensures present { enrolls cid self.old ≡ true → self.new ≡ self.old }
        ensures orderly { IsOrderly self.new }
    {
        self.kept.enroll(cid)?;
        Ok(())
    }

    /// Sets a timer, in place of the one of its connection and kind. Where it is set to that moment already, nothing changes.
    pub fn set(&mut self, cid: Cid, kind: Kind, at: u64)
        requires { IsTrue (enrolls cid self.old) }
        ensures timer { self.new ≡ with_timer (timer cid kind at) self.old }
        ensures orderly { IsOrderly self.new }
    {
        self.kept.set(cid, kind, at);
    }

    /// The timers of a connection are at these moments from now on, in place of those that it had.
    pub fn put(&mut self, cid: Cid, moments: &Moments)
        requires { IsTrue (enrolls cid self.old) }
        ensures enrolled { self.new.enrolled ≡ self.old.enrolled }
        ensures timers { HaveSame self.new.timers (timers_of cid moments.now ++ without_cid cid self.old.timers) }
        ensures orderly { IsOrderly self.new }
    {
        self.kept.put(cid, moments);
    }

    /// Clears a timer, where it is set.
    pub fn clear(&mut self, cid: Cid, kind: Kind)
        ensures cleared { self.new ≡ without_timer cid kind self.old }
        ensures absent { enrolls cid self.old ≡ false → self.new ≡ self.old }
        ensures orderly { IsOrderly self.new }
    {
        self.kept.clear(cid, kind);
    }

    /// Clears all timers of a connection and gives up its room: it is enrolled no longer.
    pub fn leave(&mut self, cid: Cid)
        ensures gone { self.new ≡ without_connection cid self.old }
        ensures absent { enrolls cid self.old ≡ false → self.new ≡ self.old }
        ensures orderly { IsOrderly self.new }
    {
        self.kept.leave(cid);
    }

    /// Takes out the timer that fires first, where it is due: where its moment is at most `now`.
    pub fn pop_due(&mut self, now: u64) -> Option<(u64, Cid, Kind)>
        ensures fired { result ≡ told (least_due now self.old) }
        ensures none { IsNone result ↔ All (λ d. now < d.at) self.old.timers }
        ensures taken { self.new ≡ without_fired (least_due now self.old) self.old }
        ensures orderly { IsOrderly self.new }
    {
        tell(self.kept.pop_due(now))
    }

    /// The timer that fires first.
    pub fn least(&self) -> Option<(u64, Cid, Kind)>
        ensures value { result ≡ told (least_of self.now.timers) }
        ensures none { IsNone result ↔ (self.now.timers ≡ []) }
        ensures orderly { IsOrderly self.now }
    {
        tell(self.kept.first())
    }
}

fn tell(deadline: Option<Deadline>) -> Option<(u64, Cid, Kind)>
    ensures { result ≡ told deadline }
{
    let Deadline { at, cid, kind } = deadline?;
    Some((at, cid, kind))
}
