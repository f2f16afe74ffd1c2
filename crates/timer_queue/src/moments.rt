ghost use Rattle.std.specs.Prelude.{◌≡◌};
ghost use Rattle.timer_queue.specs.Keys.{earlier_moment};

use net_base::Kind;
use std::mem;

/// The moments of one connection's timers, at most one of each kind, in milliseconds.
#[derive(Clone, Copy, PartialEq, Eq)]
pub struct Moments {
    pub handshake: Option<u64>,
    pub grace: Option<u64>,
    pub time_wait: Option<u64>,
    pub reply2: Option<u64>,
    pub reply8: Option<u64>,
    pub reply10: Option<u64>,
}

impl Moments {
    ghost use Rattle.timer_queue.specs.Rows.{moment, with_moment, no_moments};
    ghost use Rattle.timer_queue.specs.Keys.{first_moment};

    pub(crate) fn none() -> Moments
        ensures { result ≡ no_moments }
    {
        Moments {
            handshake: None,
            grace: None,
            time_wait: None,
            reply2: None,
            reply8: None,
            reply10: None,
        }
    }

    // The moment of the timer of a kind.
    pub(crate) fn of(&self, kind: Kind) -> Option<u64>
        ensures { result ≡ moment kind self.now }
    {
        match kind {
            Kind::Handshake => self.handshake,
            Kind::Grace => self.grace,
            Kind::TimeWait => self.time_wait,
            Kind::Reply2 => self.reply2,
            Kind::Reply8 => self.reply8,
            Kind::Reply10 => self.reply10,
        }
    }

    // Puts a moment in place of the one of a kind, and gives that one.
    pub(crate) fn replace(&mut self, kind: Kind, at: Option<u64>) -> Option<u64>
        ensures moments { self.new ≡ with_moment kind at self.old }
        ensures old { result ≡ moment kind self.old }
    {
        match kind {
            Kind::Handshake => mem::replace(&mut self.handshake, at),
            Kind::Grace => mem::replace(&mut self.grace, at),
            Kind::TimeWait => mem::replace(&mut self.time_wait, at),
            Kind::Reply2 => mem::replace(&mut self.reply2, at),
            Kind::Reply8 => mem::replace(&mut self.reply8, at),
            Kind::Reply10 => mem::replace(&mut self.reply10, at),
        }
    }

    // The first of the moments.
    pub(crate) fn first(&self) -> Option<u64>
        ensures { result ≡ first_moment self.now }
    {
        let reply = earlier(self.reply2, earlier(self.reply8, self.reply10));
        let late = earlier(self.grace, earlier(self.time_wait, reply));
        earlier(self.handshake, late)
    }
}

// The earlier one of two moments, where there are any.
#[inline(always)]
fn earlier(one: Option<u64>, other: Option<u64>) -> Option<u64>
    ensures { result ≡ earlier_moment one other }
{
    match (one, other) {
        (None, other) => other,
        (one, None) => one,
        (Some(one), Some(other)) => Some(one.min(other)),
    }
}
