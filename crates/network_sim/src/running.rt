ghost use Rattle.std.specs.Prelude.{◌≡◌, IsSome};
ghost use Rattle.network_sim.specs.Traces.{HasFaultCount};
ghost use Rattle.network_sim.specs.declared.asked.RunEnd.{RunEnd};
ghost use Rattle.trace_compare.specs.Written.{TakesAgreeing};

use crate::asked::{Asked, RunEnd};
use crate::network::Network;
use crate::putting::put_trace;
use io_edge::Sink;
use net_base::OutOfMemory;
use network_scenario::Scenario;
use std::alloc::Global;
use stepper::Stepper;

/// Simulates a network of whatever steps as the machine does, and writes what is asked for: reports, or the trace of a
/// node. The stock has what each picks by that is begun in it: as many as `Scenario::engines` says. Where it has fewer,
/// nodes are up and do nothing.
pub fn run_network<S: Stepper, K: Sink>(
    alloc: Global,
    scenario: Scenario,
    asked: Asked,
    stock: Vec<S::Means>,
    out: &mut K,
) -> RunEnd
    ensures agrees { IsSome asked.traced → result ≡ RunEnd.Done → ∥ TakesAgreeing (K.taken out.old) (K.taken out.new) ∥₁ }
    ensures faults { HasFaultCount (K.faults out.old) (K.faults out.new) result }
{
    match Network::<S>::new(alloc, scenario, asked, stock) {
        Ok(mut network) => match asked.traced {
            Some(node) => run_to_trace(&mut network, node, out),
            None => run_to_reports(&mut network, out),
        },
        Err(OutOfMemory) => RunEnd::OutOfMemory,
    }
}

// Writes the trace of a node. Nothing is to be written before the end.
fn run_to_trace<S: Stepper, K: Sink>(network: &mut Network<S>, node: usize, out: &mut K) -> RunEnd
    ensures agrees { result ≡ RunEnd.Done → ∥ TakesAgreeing (K.taken out.old) (K.taken out.new) ∥₁ }
    ensures faults { HasFaultCount (K.faults out.old) (K.faults out.new) result }
{
    match network.trace_of(node) {
        Ok(Some(trace)) => put_trace(trace, out),
        Ok(None) => RunEnd::NoTrace,
        Err(OutOfMemory) => RunEnd::OutOfMemory,
    }
}

// Writes reports.
fn run_to_reports<S: Stepper, K: Sink>(network: &mut Network<S>, out: &mut K) -> RunEnd
    ensures faults { HasFaultCount (K.faults out.old) (K.faults out.new) result }
{
    for _ in 0..u64::MAX {
        if network.go_on().is_err() {
            return RunEnd::OutOfMemory;
        }
        if network.ground.reporter.pieces.put(out).is_err() {
            return RunEnd::WriteFault;
        }
        if network.ground.is_over {
            break;
        }
    }
    RunEnd::Done
}
