ghost use Rattle.std.specs.Prelude.{◌≡◌, ◌≤◌, ◌++◌, ◌↔◌, All, Some, None, false, true, map, string_bytes};
ghost use Rattle.net_base.specs.Limits.{HasValencies};
ghost use Rattle.node_run.specs.Asked.{Asked, asked_by, node_of};
ghost use Rattle.node_run.specs.Files.{shelf_told, CanRun, IsOfWordsOrFiles};
ghost use Rattle.node_run.specs.Node.{world_told, node_told, IsNodeRun, IsDriving, IsServing};
ghost use Rattle.tool_status.specs.Status.{status_text, unresolved_text};
ghost use Rattle.tool_status.specs.Streams.{sink_told};
ghost use Rattle.tool_status.specs.Telling.{IsTold};
ghost use Rattle.trace_compare.specs.Written.{TakesAgreeing};

use crate::files::read_files;
use crate::node_words::NodeWords;
use io_edge::{Shelf, Sink};
use laws::runs_are_lawful;
use net_base::Event;
use node_settings::{Config, Topology};
use node_world::{World, WorldRefusal};
use std::alloc::Global;
use tool_status::{Status, tell, tell_behind, tell_unresolved};
use world_drive::drive;

/// Runs a node, with its files from a shelf, in a world that is not open. Its words are `node`, the names of the settings
/// file and of the topology file, and how many events of the world there are to be at most.
pub fn run_node<H: Shelf, W: World, K: Sink, E: Sink>(
    alloc: Global,
    words: &[String],
    shelf: &mut H,
    world: &mut W,
    out: &mut K,
    err: &mut E,
) -> Status
    requires { W.is_open world.old ≡ false }

    // Words that are none of a node are answered so, and nothing is done of them.
    ensures usage { (result ≡ Status.Usage) ↔ (node_of (map string_bytes words.now) ≡ None) }
    ensures usage_shelf { result ≡ Status.Usage → shelf.new ≡ shelf.old }
    ensures usage_told { result ≡ Status.Usage → IsTold (E.taken err.old) (E.taken err.new) (E.faults err.old) (E.faults err.new) (status_text result) }

    // What was read and what the files came to, what was taken from the world, done there, written and told, and that
    // every law holds in that run.
    ensures runs { (asked : Asked) → node_of (map string_bytes words.now) ≡ Some asked → IsNodeRun asked
        (node_told (shelf_told (H.file shelf.old) (H.readings shelf.old))
        (world_told (W.is_open world.old) (W.has_ended world.old) (W.faults world.old) (W.opening world.old) (W.taken world.old) (W.done world.old))
        (sink_told (K.taken out.old) (K.faults out.old)) (sink_told (E.taken err.old) (E.faults err.old)))
        (node_told (shelf_told (H.file shelf.new) (H.readings shelf.new))
        (world_told (W.is_open world.new) (W.has_ended world.new) (W.faults world.new) (W.opening world.new) (W.taken world.new) (W.done world.new))
        (sink_told (K.taken out.new) (K.faults out.new)) (sink_told (E.taken err.new) (E.faults err.new))) result }

    // Neither words nor files that are refused touch the world and the output.
    ensures untouched_world { IsOfWordsOrFiles result → world.new ≡ world.old }
    ensures untouched_out { IsOfWordsOrFiles result → out.new ≡ out.old }
    ensures agrees { result ≡ Status.Done → TakesAgreeing (K.taken out.old) (K.taken out.new) }
{
    match NodeWords::of_words(words) {
        Some(asked) => serve(alloc, asked, shelf, world, out, err),
        None => {
            // A text that is not taken changes no status.
            let _ = tell(&Status::Usage, err);
            Status::Usage
        }
    }
}

// A node with these words.
fn serve<H: Shelf, W: World, K: Sink, E: Sink>(
    alloc: Global,
    asked: NodeWords,
    shelf: &mut H,
    world: &mut W,
    out: &mut K,
    err: &mut E,
) -> Status
    requires shut { W.is_open world.old ≡ false }
    requires few { asked.count ≤ 900_000 }
    ensures runs { IsNodeRun (asked_by asked.entry)
        (node_told (shelf_told (H.file shelf.old) (H.readings shelf.old))
        (world_told (W.is_open world.old) (W.has_ended world.old) (W.faults world.old) (W.opening world.old) (W.taken world.old) (W.done world.old))
        (sink_told (K.taken out.old) (K.faults out.old)) (sink_told (E.taken err.old) (E.faults err.old)))
        (node_told (shelf_told (H.file shelf.new) (H.readings shelf.new))
        (world_told (W.is_open world.new) (W.has_ended world.new) (W.faults world.new) (W.opening world.new) (W.taken world.new) (W.done world.new))
        (sink_told (K.taken out.new) (K.faults out.new)) (sink_told (E.taken err.new) (E.faults err.new))) result }
    ensures untouched_world { IsOfWordsOrFiles result → world.new ≡ world.old }
    ensures untouched_out { IsOfWordsOrFiles result → out.new ≡ out.old }
    ensures agrees { result ≡ Status.Done → TakesAgreeing (K.taken out.old) (K.taken out.new) }
{
    match read_files(alloc, asked, shelf) {
        Ok((config, topology)) => {
            serve_files(alloc, &config, topology, asked.count, world, out, err)
        }
        Err(status) => {
            let _ = tell(&status, err);
            status
        }
    }
}

// A node with these files. What is not resolved is told before the world is opened, and the status behind it.
fn serve_files<W: World, K: Sink, E: Sink>(
    alloc: Global,
    config: &Config,
    topology: Topology,
    count: u64,
    world: &mut W,
    out: &mut K,
    err: &mut E,
) -> Status
    requires shut { W.is_open world.old ≡ false }
    requires can_run { CanRun config.now }
    requires valencies { All HasValencies topology.groups }
    requires few { count ≤ 900_000 }
    ensures serves { IsServing config.now topology count
        (world_told (W.is_open world.old) (W.has_ended world.old) (W.faults world.old) (W.opening world.old) (W.taken world.old) (W.done world.old))
        (world_told (W.is_open world.new) (W.has_ended world.new) (W.faults world.new) (W.opening world.new) (W.taken world.new) (W.done world.new))
        (sink_told (K.taken out.old) (K.faults out.old)) (sink_told (K.taken out.new) (K.faults out.new)) result }
    ensures agrees { result ≡ Status.Done → TakesAgreeing (K.taken out.old) (K.taken out.new) }
    ensures said { IsTold (E.taken err.old) (E.taken err.new) (E.faults err.old) (E.faults err.new) (unresolved_text topology.unresolved ++ status_text result) }
{
    let unresolved = tell_unresolved(topology.unresolved, err);
    let status = open_world(alloc, config, topology, count, world, out);
    let _ = tell_behind(unresolved, &status, err);
    status
}

// Opens the world, and drives the machine in it.
fn open_world<W: World, K: Sink>(
    alloc: Global,
    config: &Config,
    topology: Topology,
    count: u64,
    world: &mut W,
    out: &mut K,
) -> Status
    requires shut { W.is_open world.old ≡ false }
    requires can_run { CanRun config.now }
    requires valencies { All HasValencies topology.groups }
    requires few { count ≤ 900_000 }
    ensures serves { IsServing config.now topology count
        (world_told (W.is_open world.old) (W.has_ended world.old) (W.faults world.old) (W.opening world.old) (W.taken world.old) (W.done world.old))
        (world_told (W.is_open world.new) (W.has_ended world.new) (W.faults world.new) (W.opening world.new) (W.taken world.new) (W.done world.new))
        (sink_told (K.taken out.old) (K.faults out.old)) (sink_told (K.taken out.new) (K.faults out.new)) result }
    ensures agrees { result ≡ Status.Done → TakesAgreeing (K.taken out.old) (K.taken out.new) }
{
    match world.open(config, &topology.publics) {
        Ok(()) => drive_files(alloc, config, topology, count, world, out),
        Err(WorldRefusal::Failed) => Status::WorldFault,
        Err(WorldRefusal::OutOfMemory) => Status::OutOfMemory,
    }
}

// The machine in a world that is open, with the targets and the local root peers of the files before all else.
fn drive_files<W: World, K: Sink>(
    alloc: Global,
    config: &Config,
    topology: Topology,
    count: u64,
    world: &mut W,
    out: &mut K,
) -> Status
    requires open { W.is_open world.old ≡ true }
    requires can_run { CanRun config.now }
    requires valencies { All HasValencies topology.groups }
    requires few { count ≤ 900_000 }
    ensures drives { IsDriving config.now topology count
        (world_told (W.is_open world.old) (W.has_ended world.old) (W.faults world.old) (W.opening world.old) (W.taken world.old) (W.done world.old))
        (world_told (W.is_open world.new) (W.has_ended world.new) (W.faults world.new) (W.opening world.new) (W.taken world.new) (W.done world.new))
        (sink_told (K.taken out.old) (K.faults out.old)) (sink_told (K.taken out.new) (K.faults out.new)) result }
    ensures agrees { result ≡ Status.Done → TakesAgreeing (K.taken out.old) (K.taken out.new) }
{
    runs_are_lawful();
    let first = [Event::Aims(config.targets), Event::Locals(topology.groups)];
    Status::of_outcome(drive(alloc, &config.settings, &first, world, count, out))
}
