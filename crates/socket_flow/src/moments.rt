ghost use Rattle.std.specs.Prelude.{◌≡◌, ◌≤◌, ◌-◌, ◌^◌, if◌then◌else◌};
ghost use Rattle.socket_flow.specs.Moments.{started, reached, is_news, after_telling, is_due as due, after_tick};

use net_base::NUMBER_MOST;
use std::marker::Model;

/// The moment, the last that the node was told, and when the next tick comes.
#[derive(Drop)]
pub(crate) struct Moments {
    moment: u64,
    told: u64,
    tick: u64,
    next_tick: u64,
}

impl Model for Moments {
    ghost use Rattle.std.specs.Prelude.{◌≤◌, ◌^◌};
    ghost use Rattle.socket_flow.specs.Moments.{Times};

    ghost Value = { Times };

    ghost view = { λ m. record { moment = m.moment; told = m.told; tick = m.tick; next_tick = m.next_tick } };

    ghost invariant = { λ m. (m.moment ≤ 2 ^ 48) × (1 ≤ m.tick) };
}

impl Moments {
    /// It is moment 0, and the first tick comes when one has passed.
    pub(crate) fn new(tick: u64) -> Moments
        ensures { result ≡ started tick }
    {
        let tick = tick.max(1);
        Moments {
            moment: 0,
            told: 0,
            tick,
            next_tick: tick,
        }
    }

    pub(crate) fn moment(&self) -> u64
        ensures moment { result ≡ self.now.moment }
        ensures bounded { result ≤ 2 ^ 48 }
    {
        self.moment
    }

    /// It is this moment.
    pub(crate) fn reach(&mut self, moment: u64)
        ensures { self.new ≡ reached self.old moment }
    {
        self.moment = self.moment.max(moment.min(NUMBER_MOST));
    }

    /// Whether the moment is later than the last that was told. It is told then.
    pub(crate) fn take_news(&mut self) -> bool
        ensures answer { result ≡ is_news self.old }
        ensures after { self.new ≡ (if is_news self.old then after_telling self.old else self.old) }
    {
        let is_news = self.told < self.moment;
        if is_news {
            self.told = self.moment;
        }
        is_news
    }

    /// Whether a tick has come. It is passed then.
    pub(crate) fn take_tick(&mut self) -> bool
        ensures answer { result ≡ due self.old }
        ensures after { self.new ≡ (if due self.old then after_tick self.old else self.old) }
    {
        let is_due = self.next_tick <= self.moment;
        if is_due {
            self.next_tick = (self.moment - self.moment % self.tick).saturating_add(self.tick);
        }
        is_due
    }

    /// How long it is to the next tick.
    pub(crate) fn until_tick(&self) -> u64
        ensures { result ≡ self.now.next_tick - self.now.moment }
    {
        self.next_tick.saturating_sub(self.moment)
    }
}
