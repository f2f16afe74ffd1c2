use crate::asked::Asked;
use crate::draws::Draws;
use crate::graph::Graph;
use crate::measure::Measure;
use crate::node::Node;
use crate::nodes::Nodes;
use crate::spread::Spread;
use io_edge::PieceWriter;
use net_base::OutOfMemory;
use network_scenario::Kind;
use std::alloc::Global;

const SECOND: u64 = 1_000;

// From so many nodes it is looked how far the others are.
const SAMPLES: u64 = 4;

// Of no more nodes it is told at the end who uses whom.
const DRAWN_MOST: usize = 256;

/// What is told of a network.
#[derive(Drop)]
pub(crate) struct Reporter {
    alloc: Global,
    /// The time between two reports.
    pub every: u64,
    // A trace is written in place of reports.
    is_silent: bool,
    // What a report leaves to chance, apart, so that reports change nothing.
    samples: Draws,
    /// What is written next.
    pub pieces: PieceWriter,
    /// How many events and bytes there were since the last report.
    pub events: u64,
    pub bytes: u64,
}

impl Reporter {
    pub(crate) fn new(alloc: Global, asked: Asked) -> Result<Reporter, OutOfMemory> {
        let pieces = PieceWriter::new(alloc)?;
        Ok(Reporter {
            alloc,
            every: asked.every,
            is_silent: asked.traced.is_some(),
            samples: Draws::new(asked.seed.wrapping_add(1)),
            pieces,
            events: 0,
            bytes: 0,
        })
    }

    /// A line of each kind and one of the network, where no trace is written.
    pub(crate) fn report(
        &mut self,
        kinds: &[Kind],
        nodes: &Nodes,
        now: u64,
    ) -> Result<(), OutOfMemory> {
        if self.is_silent {
            return Ok(());
        }
        let seconds = now / SECOND;
        for (place, kind) in kinds.iter().enumerate() {
            self.report_kind(seconds, place, kind, nodes)?;
        }
        let mut graph = Graph::new(self.alloc);
        graph.draw(nodes)?;
        self.report_graph(seconds, &mut graph)
    }

    fn report_kind(
        &mut self,
        seconds: u64,
        place: usize,
        kind: &Kind,
        nodes: &Nodes,
    ) -> Result<(), OutOfMemory> {
        let known = Spread::of(self.alloc, nodes, place, Measure::Known)?;
        let established = Spread::of(self.alloc, nodes, place, Measure::Established)?;
        let active = Spread::of(self.alloc, nodes, place, Measure::Active)?;
        let counted = Spread::of(self.alloc, nodes, place, Measure::Counted)?;
        let targets = &kind.targets;
        let line = format!(in self.alloc;
            "kind {seconds} {} up {} known {known} {} established {established} {} active {active} {} inbound {counted} {}",
            kind.name.as_str(),
            known.count,
            targets.known,
            targets.established,
            targets.active,
            kind.settings.hard
        )?;
        self.pieces.push_line(line.as_bytes())
    }

    fn report_graph(&mut self, seconds: u64, graph: &mut Graph) -> Result<(), OutOfMemory> {
        let pieces = graph.pieces()?;
        let diameter = self.diameter(graph)?;
        let line = format!(in self.alloc;
            "network {seconds} up {} pieces {} alone {} largest {} diameter {diameter} active {} attackers {} events {} bytes {}",
            graph.members.len(),
            pieces.pieces,
            pieces.alone,
            pieces.largest,
            graph.active,
            graph.attackers,
            self.events,
            self.bytes
        )?;
        self.events = 0;
        self.bytes = 0;
        self.pieces.push_line(line.as_bytes())
    }

    fn diameter(&mut self, graph: &mut Graph) -> Result<u64, OutOfMemory> {
        let mut greatest = 0;
        for _ in 0..SAMPLES {
            if let Some(member) = self.samples.place(graph.members.len()) {
                greatest = graph.depth_from(member)?.max(greatest);
            }
        }
        Ok(greatest)
    }

    /// At the end: of each kind, how many have reached which target, and in which time; and who uses whom.
    pub(crate) fn report_reached(
        &mut self,
        kinds: &[Kind],
        nodes: &Nodes,
    ) -> Result<(), OutOfMemory> {
        if self.is_silent {
            return Ok(());
        }
        for (place, kind) in kinds.iter().enumerate() {
            self.report_goals(place, kind, nodes)?;
        }
        if nodes.all.len() > DRAWN_MOST {
            return Ok(());
        }
        for (place, node) in nodes.all.iter().enumerate() {
            if node.is_up {
                self.report_uses(place, node)?;
            }
        }
        Ok(())
    }

    fn report_goals(
        &mut self,
        place: usize,
        kind: &Kind,
        nodes: &Nodes,
    ) -> Result<(), OutOfMemory> {
        self.report_goal(place, kind, nodes, "known", Measure::ReachedKnown)?;
        self.report_goal(
            place,
            kind,
            nodes,
            "established",
            Measure::ReachedEstablished,
        )?;
        self.report_goal(place, kind, nodes, "active", Measure::ReachedActive)
    }

    fn report_goal(
        &mut self,
        place: usize,
        kind: &Kind,
        nodes: &Nodes,
        goal: &str,
        measure: Measure,
    ) -> Result<(), OutOfMemory> {
        let times = Spread::of(self.alloc, nodes, place, measure)?;
        let line = format!(in self.alloc;
            "reached {} {goal} {} {} {times}",
            kind.name.as_str(),
            times.count,
            kind.count
        )?;
        self.pieces.push_line(line.as_bytes())
    }

    // Whom a node uses.
    fn report_uses(&mut self, place: usize, node: &Node) -> Result<(), OutOfMemory> {
        for peer in node.peers.hot.iter() {
            self.report_use(place, *peer)?;
        }
        Ok(())
    }

    fn report_use(&mut self, place: usize, peer: usize) -> Result<(), OutOfMemory> {
        let line = format!(in self.alloc; "uses {place} {peer}")?;
        self.pieces.push_line(line.as_bytes())
    }
}
