//! What befalls the network: it falls apart and is whole again, and nodes leave and come back.

use crate::ground::Ground;
use crate::happening::Happening;
use crate::link::Side;
use crate::task::{After, Task};
use net_base::OutOfMemory;
use network_scenario::{Apart, Leaving, Parting};

// Within so many milliseconds those that left come back.
const RETURN_MOST: u64 = 10_000;

impl Ground {
    /// Puts down what the scenario has happen.
    pub(crate) fn foresee(&mut self) -> Result<(), OutOfMemory> {
        for parting in &self.scenario.partings {
            self.agenda.put(parting.from, Happening::Part(*parting))?;
            self.agenda.put(parting.to, Happening::Heal)?;
        }
        for leaving in &self.scenario.leavings {
            self.agenda.put(leaving.at, Happening::Leave(*leaving))?;
        }
        self.agenda.put(self.reporter.every, Happening::Report)
    }

    /// The network falls apart. The sockets across are found dead after a while.
    pub(crate) fn part(&mut self, parting: Parting) -> Result<(), OutOfMemory> {
        for index in 0..self.nodes.all.len() {
            self.set_apart(index, parting.apart);
        }
        self.nodes.is_parted = true;
        for (id, link) in self.links.all.iter() {
            if self.nodes.parts(link) {
                let (dialer, acceptor) = (Side::Dialer, Side::Acceptor);
                self.agenda
                    .later(parting.notice, Happening::Closed(*id, dialer))?;
                self.agenda
                    .later(parting.notice, Happening::Closed(*id, acceptor))?;
            }
        }
        Ok(())
    }

    fn set_apart(&mut self, index: usize, apart: Apart) {
        if let Some(node) = self.nodes.get_mut(index) {
            node.is_apart = match apart {
                Apart::Kind(kind) => node.kind == kind,
                Apart::Share(share) => self.draws.chance(share),
            };
        }
    }

    /// A node leaves where it is drawn to, and then the next one may.
    pub(crate) fn leave_from(&mut self, leaving: Leaving, index: usize) -> Result<(), OutOfMemory> {
        if index >= self.nodes.all.len() {
            self.after = After::Nothing;
            return Ok(());
        }
        self.after = After::Leave(leaving, index.saturating_add(1));
        if !self.nodes.is_up(index) || !self.draws.chance(leaving.share) {
            return Ok(());
        }
        self.task = Some(Task::End(index));
        self.leave(index, leaving.back)
    }

    // A node leaves: its links end, and who waits for it is refused.
    fn leave(&mut self, index: usize, back: Option<u64>) -> Result<(), OutOfMemory> {
        if let Some(node) = self.nodes.get_mut(index) {
            node.is_up = false;
        }
        self.drop_all(index)?;
        let Some(back) = back else {
            return Ok(());
        };
        let moment = back.saturating_add(self.draws.between(1, RETURN_MOST));
        self.agenda.put(moment, Happening::Begin(index))
    }
}
