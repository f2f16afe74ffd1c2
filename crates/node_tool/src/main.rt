//! The program of a Cardano node's connection manager: it replays traces and checks them, runs a made town, leads a pair
//! through a handshake, serves local clients, and runs a node on sockets.
#![tactic(auto)]

mod words;

pub use command_run::{Command, run};
use io_edge::{DirShelf, StdSink, StdSource};
use loop_world::LoopWorld;
pub use node_run::run_node;
use std::process::ExitCode;
use tool_run::dispatch;
pub use tool_status::{Status, What, Which};

fn main(rt: HostRuntime) -> ExitCode {
    let alloc = rt.alloc();
    ExitCode::from(dispatch(
        alloc,
        words::command_words(&rt),
        &mut StdSource::new(&rt),
        &mut DirShelf::new(alloc, &rt),
        &mut LoopWorld::new(alloc, &rt),
        &mut StdSink::out(&rt),
        &mut StdSink::err(rt.stderr()),
    ))
}
