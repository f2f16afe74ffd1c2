ghost use Rattle.std.specs.Prelude.{◌≡◌, ◌++◌, IsTrue, false};
ghost use Rattle.conn_table.specs.Conditions.{after_step};
ghost use Rattle.connections.specs.Steps.{keeps_phase};
ghost use Rattle.connections.specs.Timed.{HasDeadlinesOf, handshake_end, time_wait_end, grace_end, reply_end};
ghost use Rattle.machine.specs.Deadlines.{deadlines_of};
ghost use Rattle.net_base.specs.Shared.{nothing_undecoded};
ghost use Rattle.timer_queue.specs.Queue.{IsOrderly, is_enrolled};
ghost use Rattle.timer_queue.specs.Rows.{IsMomentOf, timers_of};
ghost use Rattle.timer_queue.specs.Timers.{HaveSame, has_timer, is_timer_of, without_cid};

use crate::Reply;
use crate::replies::Replies;
use conn_table::Step;
use net_base::{Cid, Deadline, Facts, Grace, Kind, Phase};
use timer_queue::{Moments, TimerQueue};

// The deadlines of a connection are its timers, in place of those that it had.
#[inline(always)]
pub fn retime(timers: &mut TimerQueue, facts: &Facts, replies: &Replies)
    requires { IsTrue (is_enrolled facts.now.cid timers.old) }
    ensures enrolled { timers.new.enrolled ≡ timers.old.enrolled }
    ensures timers { HaveSame timers.new.timers
        (deadlines_of (record { facts = facts.now; undecoded = nothing_undecoded; owed = replies.now })
        ++ without_cid facts.now.cid timers.old.timers) }
    ensures orderly { IsOrderly timers.new }
{
    timers.put(facts.cid, &moments_of(facts, replies));
}

// The same of a connection that made a step, and whose replies are as before. Most steps leave its phase, and then only the
// grace is looked at.
#[inline(always)]
pub fn retime_by(step: Step, timers: &mut TimerQueue, was: &Facts, is: &Facts, replies: &Replies)
    requires enrolled { IsTrue (is_enrolled is.now.cid timers.old) }
    requires orderly { IsOrderly timers.old }
    requires moved { is.now ≡ after_step step was.now }
    requires timed { HasDeadlinesOf (record { facts = was.now; undecoded = nothing_undecoded; owed = replies.now }) timers.old.timers }
    ensures enrolled { timers.new.enrolled ≡ timers.old.enrolled }
    ensures timers { HaveSame timers.new.timers
        (deadlines_of (record { facts = is.now; undecoded = nothing_undecoded; owed = replies.now })
        ++ without_cid is.now.cid timers.old.timers) }
    ensures orderly { IsOrderly timers.new }
{
    if keeps_phase(step) {
        regrace(timers, is.cid, grace_end(was.grace), grace_end(is.grace));
    } else {
        retime(timers, is, replies);
    }
}

// The end of a grace that was at one moment, or at none, is at another.
fn regrace(timers: &mut TimerQueue, cid: Cid, was: Option<u64>, is: Option<u64>)
    requires enrolled { IsTrue (is_enrolled cid timers.old) }
    requires orderly { IsOrderly timers.old }
    requires was { IsMomentOf cid Kind.Grace was timers.old.timers }
    ensures enrolled { timers.new.enrolled ≡ timers.old.enrolled }
    ensures is { IsMomentOf cid Kind.Grace is timers.new.timers }
    ensures others { (d : Deadline) → is_timer_of cid Kind.Grace d ≡ false → has_timer d timers.new.timers ≡ has_timer d timers.old.timers }
    ensures orderly { IsOrderly timers.new }
{
    match (was, is) {
        (_, Some(until)) => timers.set(cid, Kind::Grace, until),
        (Some(_), None) => timers.clear(cid, Kind::Grace),
        (None, None) => {}
    }
}

// Whether a step leaves the phase of a connection.
fn keeps_phase(step: Step) -> bool
    ensures { result ≡ keeps_phase step }
{
    match step {
        Step::Acquire | Step::Release(_) | Step::Awake(_) | Step::Idle(..) => true,
        Step::Connected(_) | Step::Negotiated(..) | Step::GraceOver(_) => false,
    }
}

// The moments of a connection's deadlines, by kind.
fn moments_of(facts: &Facts, replies: &Replies) -> Moments
    ensures { HaveSame (timers_of facts.now.cid result)
        (deadlines_of (record { facts = facts.now; undecoded = nothing_undecoded; owed = replies.now })) }
{
    let (chain_sync, keep_alive, peer_sharing) = replies.by_protocol();
    Moments {
        handshake: handshake_end(facts.phase),
        grace: grace_end(facts.grace),
        time_wait: time_wait_end(facts.phase),
        reply2: reply_end(chain_sync),
        reply8: reply_end(keep_alive),
        reply10: reply_end(peer_sharing),
    }
}

fn handshake_end(phase: Phase) -> Option<u64>
    ensures { result ≡ handshake_end phase }
{
    match phase {
        Phase::Greeting(until) => Some(until),
        Phase::Dialing | Phase::Negotiated | Phase::Closing(_) => None,
    }
}

fn time_wait_end(phase: Phase) -> Option<u64>
    ensures { result ≡ time_wait_end phase }
{
    match phase {
        Phase::Closing(until) => Some(until),
        Phase::Dialing | Phase::Greeting(_) | Phase::Negotiated => None,
    }
}

fn grace_end(grace: Grace) -> Option<u64>
    ensures { result ≡ grace_end grace }
{
    match grace {
        Grace::ForRemote(until) | Grace::ForLocal(until) => Some(until),
        Grace::Off => None,
    }
}

fn reply_end(reply: Option<Reply>) -> Option<u64>
    ensures { result ≡ reply_end reply }
{
    let reply = reply?;
    Some(reply.until)
}
