ghost use Rattle.std.specs.Prelude.{◌≡◌, ◌≤◌};
ghost use Rattle.net_base.specs.Calls.{next_fails, after_call, after_fault};

use crate::NumberList;
use std::marker::Model;

/// The calls of a device in memory: how many were made, which are to fail, and how many did.
#[derive(Drop)]
pub struct CallLog {
    made: u64,
    failing: NumberList,
    faults: u64,
}

impl Model for CallLog {
    ghost use Rattle.net_base.specs.Calls.{Calls};

    ghost Value = { Calls };

    ghost view = { λ c. record { made = c.made; failing = c.failing; faults = c.faults } };
}

impl CallLog {
    /// No call is made yet. Of the calls, counted from 1, those fail whose numbers are given.
    pub fn new(failing: NumberList) -> CallLog
        ensures { result ≡ record { made = 0; failing = failing; faults = 0 } }
    {
        CallLog {
            made: 0,
            failing,
            faults: 0,
        }
    }

    /// Counts a call, and its fault where it is one of those that fail. Answers whether it is.
    pub fn count_call(&mut self) -> bool
        ensures answer { result ≡ next_fails self.old }
        ensures after { self.new ≡ after_call self.old }
        ensures later { self.old.faults ≤ self.new.faults }
    {
        self.made = self.made.saturating_add(1);
        let fails = self.failing.as_slice().contains(&self.made);
        if fails {
            self.count_fault();
        }
        fails
    }

    /// Counts a fault that comes of something else than the number of a call.
    pub fn count_fault(&mut self)
        ensures after { self.new ≡ after_fault self.old }
        ensures later { self.old.faults ≤ self.new.faults }
    {
        self.faults = self.faults.saturating_add(1);
    }

    /// How many calls were made. The count stands still at the end of its type.
    pub fn made(&self) -> u64
        ensures { result ≡ self.now.made }
    {
        self.made
    }
}
