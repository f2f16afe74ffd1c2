ghost use Rattle.std.specs.Prelude.{◌≡◌, false, IfOk};
ghost use Rattle.network_sim.specs.Seat.{Takes, TakesWhereItMay, HasRun};

use crate::fits::fits;
use crate::keeping::{keep_first, keep_on, keep_whole};
use crate::kept::Kept;
use crate::trace::Trace;
use net_base::{ActionList, Event, OutOfMemory, Settings};
use std::alloc::Global;
use stepper::Stepper;

// What steps takes so many events.
const EVENTS_MOST: u64 = 1_000_000;

// The version of traces that can hold every address.
const VERSION: u64 = 2;

/// What steps in a node's place, while the node is up, and its trace where it is kept.
#[derive(Drop)]
pub(crate) struct Seat<S: Stepper> {
    stepper: S,
    kept: Option<Kept>,
    // Memory was wanting, so nothing is known of what steps.
    is_lost: bool,
    ghost ran: { ∥ (is_lost ≡ false → HasRun (S.machine stepper) (S.events stepper) kept) ∥₁ },
}

impl<S: Stepper> Seat<S> {
    /// One to which nothing has happened. None where the settings are out of their bounds, or not of version 2.
    pub(crate) fn begin(
        alloc: Global,
        settings: Settings,
        means: S::Means,
        is_traced: bool,
    ) -> Result<Option<Seat<S>>, OutOfMemory> {
        if settings.check().is_some() || settings.version != VERSION {
            return Ok(None);
        }
        let kept = keep_first(alloc, &settings, is_traced)?;
        let stepper = S::begin(alloc, settings, means)?;
        Ok(Some(Seat {
            stepper,
            kept,
            is_lost: false,
        }))
    }

    /// Has it take an event. None where it has taken as many as it takes, or where no trace may hold the event.
    pub(crate) fn take(
        &mut self,
        alloc: Global,
        event: &Event,
    ) -> Result<Option<ActionList>, OutOfMemory>
        ensures step { IfOk result (Takes (S.machine self.old.stepper) event.now (S.machine self.new.stepper)) }
        ensures whole { IfOk result (TakesWhereItMay self.old.is_lost (S.events self.old.stepper) event.now) }
    {
        if self.is_lost || self.stepper.taken() >= EVENTS_MOST || !fits(event) {
            return Ok(None);
        }
        self.is_lost = true;
        let actions = self.stepper.step(event, ActionList::new(alloc))?;
        keep_on(alloc, &mut self.kept, event, actions.as_slice())?;
        self.is_lost = false;
        Ok(Some(actions))
    }

    /// Its trace up to now, where it is kept.
    pub(crate) fn into_trace(self) -> Result<Option<Trace>, OutOfMemory> {
        let Seat {
            stepper,
            kept,
            is_lost,
        } = self;
        if is_lost || stepper.taken() > EVENTS_MOST {
            return Ok(None);
        }
        match kept {
            Some(kept) => Ok(Some(keep_whole(kept)?)),
            None => Ok(None),
        }
    }
}
