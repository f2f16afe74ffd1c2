//! What something that happens does to the network, and what it leaves to those that step for nodes.

use crate::ground::Ground;
use crate::happening::Happening;
use crate::task::{After, Task};
use net_base::{Event, OutOfMemory};

impl Ground {
    /// What follows on the last task is done, or the next thing happens.
    pub(crate) fn go_on(&mut self) -> Result<(), OutOfMemory> {
        match self.after {
            After::Nothing => self.happen_next(),
            After::Look(node) => self.look(node),
            After::Welcome(node) => self.welcome(node),
            After::Leave(leaving, node) => self.leave_from(leaving, node),
        }
    }

    fn happen_next(&mut self) -> Result<(), OutOfMemory> {
        if let Some(happening) = self.agenda.next() {
            return self.happen(happening);
        }
        self.is_over = true;
        self.reporter
            .report_reached(self.scenario.kinds.as_slice(), &self.nodes)
    }

    fn happen(&mut self, happening: Happening) -> Result<(), OutOfMemory> {
        match happening {
            Happening::Begin(node) => self.begin(node),
            Happening::Tick(node, life) => self.tick(node, life),
            Happening::Connect(link) => self.connect(link),
            Happening::Dialed(link, is_open) => self.dial_ends(link, is_open),
            Happening::Arrive(link, side, bytes) => self.arrive(link, side, bytes),
            Happening::Roots(node, life, job) => self.answer_roots(node, life, job),
            Happening::Part(parting) => self.part(parting),
            Happening::Report => self.report(),
            other => {
                self.turn_over(other);
                Ok(())
            }
        }
    }

    fn turn_over(&mut self, happening: Happening) {
        match happening {
            Happening::Closed(link, side) => self.end_closed(link, side),
            Happening::Resume(node, life) if self.nodes.lives(node, life) => {
                self.after = After::Welcome(node);
            }
            Happening::Heal => self.nodes.is_parted = false,
            Happening::Leave(leaving) => self.after = After::Leave(leaving, 0),
            _ => {}
        }
    }

    // An attacker's node looks at its slots, and another at its targets.
    fn tick(&mut self, node: usize, life: u64) -> Result<(), OutOfMemory> {
        if !self.nodes.lives(node, life) {
            return Ok(());
        }
        if self.nodes.is_honest(node) {
            self.after = After::Look(node);
            let word = self.govern_word();
            self.give(node, Event::Govern(word));
            return Ok(());
        }
        self.attack(node)?;
        self.foresee_tick(node, false)
    }

    /// A node is to hear an event, where it isn't an attacker's.
    pub(crate) fn give(&mut self, node: usize, event: Event) {
        if self.nodes.is_honest(node) {
            let moment = self.moment_to_show(node);
            self.task = Some(Task::Give(node, moment, event));
        }
    }

    // The moment that a node's engine is to be shown, where it is a later one than that shown last.
    fn moment_to_show(&mut self, index: usize) -> Option<u64> {
        let node = self.nodes.get_mut(index)?;
        let moment = self.agenda.now.saturating_sub(node.begun);
        if moment <= node.shown {
            return None;
        }
        node.shown = moment;
        Some(moment)
    }
}
