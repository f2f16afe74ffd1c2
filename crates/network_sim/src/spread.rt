use crate::measure::Measure;
use crate::nodes::Nodes;
use net_base::OutOfMemory;
use std::alloc::Global;
use std::fmt;

/// How many numbers there are, and the least, the median and the greatest of them. All are 0 of none.
#[derive(Clone, Copy)]
pub(crate) struct Spread {
    pub count: usize,
    least: u64,
    median: u64,
    greatest: u64,
}

impl Spread {
    /// Of what is measured of the nodes of a kind.
    pub(crate) fn of(
        alloc: Global,
        nodes: &Nodes,
        kind: usize,
        measure: Measure,
    ) -> Result<Spread, OutOfMemory> {
        let mut numbers = Vec::new(alloc);
        collect(nodes, kind, measure, &mut numbers)?;
        numbers.sort()?;
        Ok(Spread {
            count: numbers.len(),
            least: numbers.first().copied().unwrap_or(0),
            median: numbers.get(numbers.len() / 2).copied().unwrap_or(0),
            greatest: numbers.last().copied().unwrap_or(0),
        })
    }
}

impl fmt::Display for Spread {
    fn fmt<W: fmt::Write>(&self, f: &mut fmt::Formatter<W>) -> fmt::Result {
        write!(f, "{} {} {}", self.least, self.median, self.greatest)
    }
}

fn collect(
    nodes: &Nodes,
    kind: usize,
    measure: Measure,
    numbers: &mut Vec<u64>,
) -> Result<(), OutOfMemory> {
    for node in &nodes.all {
        if node.kind == kind {
            if let Some(number) = node.measure(measure) {
                numbers.push(number)?;
            }
        }
    }
    Ok(())
}
