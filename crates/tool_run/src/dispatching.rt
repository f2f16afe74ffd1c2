ghost use Rattle.std.specs.Prelude.{◌≡◌, false, map, string_bytes};
ghost use Rattle.node_run.specs.Files.{shelf_told};
ghost use Rattle.node_run.specs.Node.{world_told, node_told};
ghost use Rattle.tool_run.specs.Program.{request_of, request_in, program_told, ComesOf, EndsWith, LeavesSource, LeavesNode, LeavesOutput};
ghost use Rattle.tool_status.specs.Status.{status_text};
ghost use Rattle.tool_status.specs.Streams.{source_told, sink_told, IsSaid};

use command_run::{Command, run};
use io_edge::{Shelf, Sink, Source};
use net_base::OutOfMemory;
use node_run::run_node;
use node_world::World;
use std::alloc::Global;
use tool_status::{Status, tell};

/// Does what the words of the command line ask for, with the standard streams, the files and the world of a node, and
/// answers the exit status. The words stand without the program's name; where there was no memory for them, that is told.
pub fn dispatch<S: Source, H: Shelf, W: World, K: Sink, E: Sink>(
    alloc: Global,
    words: Result<Vec<String>, OutOfMemory>,
    src: &mut S,
    shelf: &mut H,
    world: &mut W,
    out: &mut K,
    err: &mut E,
) -> u8
    requires shut { W.is_open world.old ≡ false }
    ensures ends { EndsWith (request_in (λ list. map string_bytes list.items) words)
        (program_told (source_told (S.left src.old) (S.faults src.old))
        (node_told (shelf_told (H.file shelf.old) (H.readings shelf.old))
        (world_told (W.is_open world.old) (W.has_ended world.old) (W.faults world.old) (W.opening world.old) (W.taken world.old) (W.done world.old))
        (sink_told (K.taken out.old) (K.faults out.old)) (sink_told (E.taken err.old) (E.faults err.old))))
        (program_told (source_told (S.left src.new) (S.faults src.new))
        (node_told (shelf_told (H.file shelf.new) (H.readings shelf.new))
        (world_told (W.is_open world.new) (W.has_ended world.new) (W.faults world.new) (W.opening world.new) (W.taken world.new) (W.done world.new))
        (sink_told (K.taken out.new) (K.faults out.new)) (sink_told (E.taken err.new) (E.faults err.new)))) result }
    ensures source { LeavesSource (request_in (λ list. map string_bytes list.items) words) → src.new ≡ src.old }
    ensures shelf { LeavesNode (request_in (λ list. map string_bytes list.items) words) → shelf.new ≡ shelf.old }
    ensures world { LeavesNode (request_in (λ list. map string_bytes list.items) words) → world.new ≡ world.old }
    ensures out { LeavesOutput (request_in (λ list. map string_bytes list.items) words) → out.new ≡ out.old }
{
    answer(alloc, words, src, shelf, world, out, err).code()
}

// How it ended.
fn answer<S: Source, H: Shelf, W: World, K: Sink, E: Sink>(
    alloc: Global,
    words: Result<Vec<String>, OutOfMemory>,
    src: &mut S,
    shelf: &mut H,
    world: &mut W,
    out: &mut K,
    err: &mut E,
) -> Status
    requires shut { W.is_open world.old ≡ false }
    ensures comes { ComesOf (request_in (λ list. map string_bytes list.items) words)
        (program_told (source_told (S.left src.old) (S.faults src.old))
        (node_told (shelf_told (H.file shelf.old) (H.readings shelf.old))
        (world_told (W.is_open world.old) (W.has_ended world.old) (W.faults world.old) (W.opening world.old) (W.taken world.old) (W.done world.old))
        (sink_told (K.taken out.old) (K.faults out.old)) (sink_told (E.taken err.old) (E.faults err.old))))
        (program_told (source_told (S.left src.new) (S.faults src.new))
        (node_told (shelf_told (H.file shelf.new) (H.readings shelf.new))
        (world_told (W.is_open world.new) (W.has_ended world.new) (W.faults world.new) (W.opening world.new) (W.taken world.new) (W.done world.new))
        (sink_told (K.taken out.new) (K.faults out.new)) (sink_told (E.taken err.new) (E.faults err.new)))) result }
    ensures source { LeavesSource (request_in (λ list. map string_bytes list.items) words) → src.new ≡ src.old }
    ensures shelf { LeavesNode (request_in (λ list. map string_bytes list.items) words) → shelf.new ≡ shelf.old }
    ensures world { LeavesNode (request_in (λ list. map string_bytes list.items) words) → world.new ≡ world.old }
    ensures out { LeavesOutput (request_in (λ list. map string_bytes list.items) words) → out.new ≡ out.old }
{
    match words {
        Ok(words) => obey(alloc, &words, src, shelf, world, out, err),
        Err(OutOfMemory) => refuse(err),
    }
}

// What the words ask for is done.
fn obey<S: Source, H: Shelf, W: World, K: Sink, E: Sink>(
    alloc: Global,
    words: &[String],
    src: &mut S,
    shelf: &mut H,
    world: &mut W,
    out: &mut K,
    err: &mut E,
) -> Status
    requires shut { W.is_open world.old ≡ false }
    ensures comes { ComesOf (request_of (map string_bytes words.now))
        (program_told (source_told (S.left src.old) (S.faults src.old))
        (node_told (shelf_told (H.file shelf.old) (H.readings shelf.old))
        (world_told (W.is_open world.old) (W.has_ended world.old) (W.faults world.old) (W.opening world.old) (W.taken world.old) (W.done world.old))
        (sink_told (K.taken out.old) (K.faults out.old)) (sink_told (E.taken err.old) (E.faults err.old))))
        (program_told (source_told (S.left src.new) (S.faults src.new))
        (node_told (shelf_told (H.file shelf.new) (H.readings shelf.new))
        (world_told (W.is_open world.new) (W.has_ended world.new) (W.faults world.new) (W.opening world.new) (W.taken world.new) (W.done world.new))
        (sink_told (K.taken out.new) (K.faults out.new)) (sink_told (E.taken err.new) (E.faults err.new)))) result }
    ensures source { LeavesSource (request_of (map string_bytes words.now)) → src.new ≡ src.old }
    ensures shelf { LeavesNode (request_of (map string_bytes words.now)) → shelf.new ≡ shelf.old }
    ensures world { LeavesNode (request_of (map string_bytes words.now)) → world.new ≡ world.old }
    ensures out { LeavesOutput (request_of (map string_bytes words.now)) → out.new ≡ out.old }
{
    match Command::of_words(words) {
        Some(_) => run(alloc, words, src, out, err),
        None => run_node(alloc, words, shelf, world, out, err),
    }
}

// There was no memory for the words.
fn refuse<E: Sink>(err: &mut E) -> Status
    ensures status { result ≡ Status.OutOfMemory }
    ensures told { IsSaid (sink_told (E.taken err.old) (E.faults err.old)) (sink_told (E.taken err.new) (E.faults err.new)) (status_text Status.OutOfMemory) }
{
    // A text that is not taken changes no status.
    let _ = tell(&Status::OutOfMemory, err);
    Status::OutOfMemory
}
