use crate::asked::Asked;
use crate::ground::Ground;
use crate::seat::Seat;
use crate::task::{Beginning, Task};
use crate::trace::Trace;
use net_base::{Event, OutOfMemory};
use network_scenario::Scenario;
use std::alloc::Global;
use std::collections::BTreeMap;
use stepper::Stepper;

/// A network, in the middle of what happens to it.
#[derive(Drop)]
pub(crate) struct Network<S: Stepper> {
    pub ground: Ground,
    /// What steps for the nodes that are up and no attacker's.
    seats: BTreeMap<usize, Seat<S>>,
    /// What those that begin pick by.
    stock: Vec<S::Means>,
    /// The trace of this node is kept.
    traced: Option<usize>,
    /// It, once the node has left.
    trace: Option<Trace>,
}

impl<S: Stepper> Network<S> {
    /// The network of a scenario, in which nothing has happened.
    pub(crate) fn new(
        alloc: Global,
        scenario: Scenario,
        asked: Asked,
        stock: Vec<S::Means>,
    ) -> Result<Network<S>, OutOfMemory> {
        let ground = Ground::new(alloc, scenario, asked)?;
        Ok(Network {
            ground,
            seats: BTreeMap::new(alloc),
            stock,
            traced: asked.traced,
            trace: None,
        })
    }

    /// Things happen up to the end, or until a piece is to be written.
    pub(crate) fn go_on(&mut self) -> Result<(), OutOfMemory> {
        for _ in 0..u64::MAX {
            if self.ground.is_over || self.ground.reporter.pieces.is_full() {
                break;
            }
            self.ground.go_on()?;
            if let Some(task) = self.ground.task.take() {
                self.fulfil(task)?;
            }
        }
        Ok(())
    }

    /// The trace that was asked for, up to the end, where one was begun.
    pub(crate) fn trace_of(&mut self, node: usize) -> Result<Option<Trace>, OutOfMemory> {
        self.go_on()?;
        self.end(node)?;
        Ok(self.trace.take())
    }

    fn fulfil(&mut self, task: Task) -> Result<(), OutOfMemory> {
        match task {
            Task::Give(node, moment, event) => {
                if let Some(moment) = moment {
                    self.give(node, &Event::Now(moment))?;
                }
                self.give(node, &event)
            }
            Task::Begin(beginning) => self.begin(&beginning),
            Task::End(node) => self.end(node),
        }
    }

    // Has a node take an event, and does what it asks for. A node that takes no more events does nothing.
    fn give(&mut self, index: usize, event: &Event) -> Result<(), OutOfMemory> {
        let Some(seat) = self.seats.get_mut(&index) else {
            return Ok(());
        };
        match seat.take(self.ground.alloc, event)? {
            Some(actions) => self.ground.act_all(index, actions.as_slice()),
            None => Ok(()),
        }
    }

    // A node hears its targets, and then its local roots.
    fn begin(&mut self, beginning: &Beginning) -> Result<(), OutOfMemory> {
        self.seat(beginning)?;
        self.give(beginning.node, &Event::Aims(beginning.targets))?;
        match &beginning.roots {
            Some(roots) => self.give(beginning.node, roots),
            None => Ok(()),
        }
    }

    // Something steps for a node from now on, where the stock isn't empty. Its trace is kept, where it was asked for, in the
    // first life of the node.
    fn seat(&mut self, beginning: &Beginning) -> Result<(), OutOfMemory> {
        let Some(means) = self.stock.pop() else {
            return Ok(());
        };
        let is_traced = beginning.life == 1 && self.traced == Some(beginning.node);
        let alloc = self.ground.alloc;
        if let Some(seat) = Seat::begin(alloc, beginning.settings, means, is_traced)? {
            self.seats.insert(beginning.node, seat)?;
        }
        Ok(())
    }

    // Nothing steps for a node any more. Its trace stays, where it was kept.
    fn end(&mut self, node: usize) -> Result<(), OutOfMemory> {
        let Some(seat) = self.seats.remove(&node) else {
            return Ok(());
        };
        if let Some(trace) = seat.into_trace()? {
            self.trace = Some(trace);
        }
        Ok(())
    }
}
