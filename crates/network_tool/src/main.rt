//! The program of a network of nodes in memory: `FILE SEED SECONDS` reports every so many seconds of a scenario, and
//! `FILE SEED trace NODE` writes the trace of a node.
#![tactic(auto)]

mod ending;
mod words;

use ending::Ending;
use engine_start::{LentEngine, Pickers, ranked_score, score};
use io_edge::{DirShelf, Shelf, ShelfRefusal, StdSink};
use net_base::{Addr, OutOfMemory};
use network_scenario::{Scenario, read_scenario};
use network_sim::{Asked, run_network};
use pick_policy::{Picker, RankedPicker};
use std::process::ExitCode;
use words::{Wanted, command_words, wanted_by};

// How many bytes a scenario file may have.
const BYTES_MOST: usize = 1_048_576;

fn main(rt: HostRuntime) -> ExitCode {
    let ending = match command_words(&rt) {
        Ok(words) => match wanted_by(&words) {
            Some(wanted) => simulate(&rt, &wanted),
            None => Ending::Usage,
        },
        Err(OutOfMemory) => Ending::OutOfMemory,
    };
    // A text that is not taken changes no status.
    let _ = eprint!(rt; "{ending}");
    ExitCode::from(ending.code())
}

fn simulate(rt: &HostRuntime, wanted: &Wanted) -> Ending {
    match read(rt, wanted.file) {
        Ok(scenario) => match run(rt, scenario, wanted.asked) {
            Ok(ending) => ending,
            Err(OutOfMemory) => Ending::OutOfMemory,
        },
        Err(ending) => ending,
    }
}

fn read(rt: &HostRuntime, name: &str) -> Result<Scenario, Ending> {
    let alloc = rt.alloc();
    let mut shelf = DirShelf::new(alloc, rt);
    match shelf.read(name, BYTES_MOST) {
        Ok(bytes) => read_scenario(alloc, bytes.as_slice()).map_err(Ending::Refused),
        Err(ShelfRefusal::OutOfMemory) => Err(Ending::OutOfMemory),
        Err(_) => Err(Ending::FileFault),
    }
}

// Each engine wants pickers of its own, which only this function makes.
fn run(rt: &HostRuntime, scenario: Scenario, asked: Asked) -> Result<Ending, OutOfMemory> {
    let alloc = rt.alloc();
    let mut stock = Vec::new(alloc);
    for _ in 0..scenario.engines() {
        let picker = Picker::new(Box::new(alloc, |addr: Addr, word: u64| score(addr, word))?);
        let ranked = RankedPicker::new(Box::new(alloc, |addr: Addr, failures: u64, word: u64| {
            ranked_score(addr, failures, word)
        })?);
        stock.push(Pickers { picker, ranked })?;
    }
    let mut out = StdSink::out(rt);
    let end = run_network::<LentEngine, _>(alloc, scenario, asked, stock, &mut out);
    Ok(Ending::Ran(end))
}
