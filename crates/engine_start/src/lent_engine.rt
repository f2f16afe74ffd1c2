use crate::pickers::Pickers;
use crate::start::first_engine;
use net_base::{ActionList, Event, OutOfMemory, Settings};
use node_engine::Engine;
use std::alloc::Global;
use stepper::Stepper;

/// An engine that steps in its place.
#[derive(Drop)]
pub struct LentEngine {
    pub engine: Engine,
}

impl Stepper for LentEngine {
    type Means = Pickers;

    ghost machine = { λ lent. lent.engine.machine };

    ghost events = { λ lent. lent.engine.events };

    fn begin(alloc: Global, settings: Settings, pickers: Pickers) -> Result<Self, OutOfMemory> {
        let engine = first_engine(alloc, settings, pickers)?;
        Ok(LentEngine { engine })
    }

    fn step(&mut self, event: &Event, memory: ActionList) -> Result<ActionList, OutOfMemory> {
        self.engine.step_in_place(event, memory)
    }

    fn taken(&self) -> u64 {
        self.engine.taken()
    }
}
