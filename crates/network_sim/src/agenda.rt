use crate::happening::Happening;
use net_base::OutOfMemory;
use std::alloc::Global;
use std::collections::BTreeMap;

/// The clock, and what is going to happen, in order of moment, and of one moment as it was put in.
#[derive(Drop)]
pub(crate) struct Agenda {
    pub now: u64,
    /// Nothing happens after it.
    end: u64,
    waiting: BTreeMap<(u64, u64), Happening>,
    number: u64,
}

impl Agenda {
    pub(crate) fn new(alloc: Global, end: u64) -> Agenda {
        Agenda {
            now: 0,
            end,
            waiting: BTreeMap::new(alloc),
            number: 0,
        }
    }

    /// Has something happen at a moment.
    pub(crate) fn put(&mut self, moment: u64, happening: Happening) -> Result<(), OutOfMemory> {
        self.waiting.insert((moment, self.number), happening)?;
        self.number = self.number.saturating_add(1);
        Ok(())
    }

    /// Has something happen after a time.
    pub(crate) fn later(&mut self, time: u64, happening: Happening) -> Result<(), OutOfMemory> {
        self.put(self.now.saturating_add(time), happening)
    }

    /// Takes out what happens next, and turns the clock to it. None where nothing happens up to the end.
    pub(crate) fn next(&mut self) -> Option<Happening> {
        let ((moment, _), happening) = self.waiting.pop_first()?;
        if moment > self.end {
            return None;
        }
        self.now = moment;
        Some(happening)
    }
}
