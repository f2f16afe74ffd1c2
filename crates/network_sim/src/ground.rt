use crate::agenda::Agenda;
use crate::asked::Asked;
use crate::draws::Draws;
use crate::happening::Happening;
use crate::links::Links;
use crate::node::Node;
use crate::nodes::Nodes;
use crate::reporter::Reporter;
use crate::task::{After, Task};
use net_base::OutOfMemory;
use network_scenario::{Kind, Role, Scenario};
use std::alloc::Global;

const SECOND: u64 = 1_000;

/// All of a network but what steps for its nodes: it says what that is to be given, and does what it asks for.
#[derive(Drop)]
pub(crate) struct Ground {
    pub alloc: Global,
    pub scenario: Scenario,
    pub draws: Draws,
    pub agenda: Agenda,
    pub nodes: Nodes,
    pub links: Links,
    /// The link of the one that asks to be accepted, until it is or isn't.
    pub caller: Option<u64>,
    /// The link of the one that was asked about last.
    pub called: Option<u64>,
    /// Of each kind, the place of its first node.
    pub firsts: Vec<usize>,
    /// The places of the attackers.
    pub attackers: Vec<usize>,
    /// The places of those that the provider of root peers knows.
    pub publics: Vec<usize>,
    pub reporter: Reporter,
    /// What is left to be done now by those that step for nodes.
    pub task: Option<Task>,
    pub after: After,
    /// Nothing happens any more.
    pub is_over: bool,
}

impl Ground {
    /// That of a scenario, in which nothing has happened.
    pub(crate) fn new(
        alloc: Global,
        scenario: Scenario,
        asked: Asked,
    ) -> Result<Ground, OutOfMemory> {
        let reporter = Reporter::new(alloc, asked)?;
        let mut ground = Ground {
            alloc,
            draws: Draws::new(asked.seed),
            agenda: Agenda::new(alloc, scenario.seconds.saturating_mul(SECOND)),
            nodes: Nodes {
                all: Vec::new(alloc),
                is_parted: false,
            },
            links: Links::new(alloc),
            caller: None,
            called: None,
            firsts: Vec::new(alloc),
            attackers: Vec::new(alloc),
            publics: Vec::new(alloc),
            reporter,
            task: None,
            after: After::Nothing,
            is_over: false,
            scenario,
        };
        ground.prepare()?;
        Ok(ground)
    }

    // The nodes of all kinds, and what the scenario has happen.
    fn prepare(&mut self) -> Result<(), OutOfMemory> {
        for place in 0..self.scenario.kinds.len() {
            self.settle_kind(place)?;
        }
        self.foresee()
    }

    fn settle_kind(&mut self, place: usize) -> Result<(), OutOfMemory> {
        self.firsts.push(self.nodes.all.len())?;
        let Some(kind) = self.scenario.kinds.get(place) else {
            return Ok(());
        };
        let (role, count, public, within) = (kind.role, kind.count, kind.public, kind.within);
        for number in 0..count {
            self.settle(place, role, number < public, within)?;
        }
        Ok(())
    }

    fn settle(
        &mut self,
        kind: usize,
        role: Role,
        is_public: bool,
        within: u64,
    ) -> Result<(), OutOfMemory> {
        let index = self.nodes.all.len();
        if !matches!(role, Role::Honest) {
            self.attackers.push(index)?;
        }
        if is_public {
            self.publics.push(index)?;
        }
        self.nodes
            .all
            .push(Node::new(self.alloc, index, kind, role))?;
        let moment = self.draws.between(1, within);
        self.agenda.put(moment, Happening::Begin(index))
    }

    pub(crate) fn kind_of(&self, index: usize) -> Option<&Kind> {
        let node = self.nodes.get(index)?;
        self.scenario.kinds.get(node.kind)
    }

    /// Reports, and foresees the next report.
    pub(crate) fn report(&mut self) -> Result<(), OutOfMemory> {
        let kinds = self.scenario.kinds.as_slice();
        self.reporter.report(kinds, &self.nodes, self.agenda.now)?;
        let time = self.reporter.every.max(1);
        self.agenda.later(time, Happening::Report)
    }
}
