ghost use Rattle.std.specs.Prelude.{◌≡◌, ◌+◌, ◌-◌, ◌^◌, ◌&&◌, true, false, min, max, nat_le, nat_lt, None, Some, if◌then◌else◌};

use crate::limits::{ACCEPTED_MOST, CROWDED, KEPT_FOR_DIALS, REST};

/// When peers are accepted.
#[derive(Clone, Copy)]
pub(crate) struct Door {
    /// Somebody may wait.
    pub(crate) is_called: bool,
    pub(crate) rests_until: u64,
    /// How many more are accepted in this round.
    pub(crate) left: u64,
    /// The system had no room for more sockets than these, which is remembered until a moment.
    pub(crate) room: usize,
    pub(crate) crowded_until: u64,
}

impl Door {
    pub(crate) fn new() -> Door
        ensures { result ≡ record { is_called = false; rests_until = 0; left = 0; room = 0; crowded_until = 0 } }
    {
        Door {
            is_called: false,
            rests_until: 0,
            left: 0,
            room: 0,
            crowded_until: 0,
        }
    }

    pub(crate) fn begin_round(&mut self)
        ensures { self.new ≡ record self.old { left = 64 } }
    {
        self.left = ACCEPTED_MOST;
    }

    pub(crate) fn call(&mut self)
        ensures { self.new ≡ record self.old { is_called = true } }
    {
        self.is_called = true;
    }

    /// Nobody waits any more.
    pub(crate) fn clear(&mut self)
        ensures { self.new ≡ record self.old { is_called = false } }
    {
        self.is_called = false;
    }

    /// One more of this round is accepted, or is gone again.
    pub(crate) fn count(&mut self)
        ensures { self.new ≡ record self.old { left = self.old.left - 1 } }
    {
        self.left = self.left.saturating_sub(1);
    }

    /// Nobody is accepted for so many milliseconds.
    pub(crate) fn pause(&mut self, moment: u64, time: u64)
        ensures { self.new ≡ record self.old { rests_until = max self.old.rests_until (min (moment + time) (2 ^ 64 - 1)) } }
    {
        self.rests_until = self.rests_until.max(moment.saturating_add(time));
    }

    pub(crate) fn rest(&mut self, moment: u64)
        ensures { self.new ≡ record self.old { rests_until = max self.old.rests_until (min (moment + 100) (2 ^ 64 - 1)) } }
    {
        self.pause(moment, REST);
    }

    /// The system has no room for one more socket than these.
    pub(crate) fn crowd(&mut self, moment: u64, count: usize)
        ensures { self.new ≡ record self.old { room = count - 8; crowded_until = min (moment + 60000) (2 ^ 64 - 1) } }
    {
        self.room = count.saturating_sub(KEPT_FOR_DIALS);
        self.crowded_until = moment.saturating_add(CROWDED);
    }

    /// The next who waits may be accepted.
    pub(crate) fn is_open(&self, moment: u64) -> bool
        ensures { result ≡ (self.now.is_called && (nat_le self.now.rests_until moment && nat_lt 0 self.now.left)) }
    {
        self.is_called && self.rests_until <= moment && 0 < self.left
    }

    /// There is room for one more socket than these, as far as is known.
    pub(crate) fn has_room(&self, moment: u64, count: usize) -> bool
        ensures { result ≡ (if nat_le self.now.crowded_until moment then true else nat_lt count self.now.room) }
    {
        self.crowded_until <= moment || count < self.room
    }

    /// How long it is until the next may be accepted, if somebody may wait.
    pub(crate) fn until_open(&self, moment: u64) -> Option<u64>
        ensures { result ≡ (if self.now.is_called then Some (self.now.rests_until - moment) else None) }
    {
        if self.is_called {
            Some(self.rests_until.saturating_sub(moment))
        } else {
            None
        }
    }
}
