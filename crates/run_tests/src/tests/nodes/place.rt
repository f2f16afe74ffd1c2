ghost use Rattle.std.specs.Prelude.{◌≡◌, false, is_some, IfOk};
ghost use Rattle.net_base.specs.Limits.{IsWithinLimits};

use crate::tests::sinks::sink;
use io_edge::{FileList, MemShelf, MemSink, NamedFile};
use net_base::{Action, Addr, Cid, Event, EventList, Ip, NumberList, Octets, PeerNote, StateName};
use node_run::run_node;
use node_world::ScriptWorld;
use std::alloc::Global;
use std::test::Fail;
use tool_status::Status;

// How many bytes a sink has room for.
pub(super) const ROOM: usize = 4096;

// What is around a node: its files, the world, and where it writes.
#[derive(Drop)]
struct Place {
    shelf: MemShelf,
    world: ScriptWorld,
    out: MemSink,
    err: MemSink,
}

// What a node is run on: its words, its files, those that there are, and the numbers of the calls that fail.
#[derive(Clone, Copy)]
pub(super) struct Given<'a> {
    pub(super) words: &'a [&'a str],
    pub(super) settings: Option<&'a str>,
    pub(super) topology: Option<&'a str>,
    pub(super) readings: &'a [u64],
    pub(super) world: &'a [u64],
    pub(super) writings: &'a [u64],
    pub(super) tellings: &'a [u64],
}

// How a node is to end: the parts that were written, what was told, and where so many actions are given, they are the
// first of a whole run's.
#[derive(Clone, Copy)]
pub(super) struct Wanted<'a> {
    pub(super) status: Status,
    pub(super) parts: &'a [&'a str],
    pub(super) told: &'a str,
    pub(super) done: Option<usize>,
}

fn octets(alloc: Global, text: &str) -> Result<Octets, Fail> {
    Ok(Octets::from_vec(text.as_bytes().to_vec(alloc)?))
}

pub(super) fn strings(alloc: Global, words: &[&str]) -> Result<Vec<String>, Fail> {
    let mut given = Vec::new(alloc);
    for word in words {
        given.push(String::from_str(alloc, word)?)?;
    }
    Ok(given)
}

// 127.0.0.1 with a port.
fn local(port: u16) -> Addr {
    Addr {
        ip: Ip::V4(0x7f00_0001),
        port,
    }
}

fn connects() -> Event
    ensures { IsWithinLimits result }
{
    Event::Accepted(local(3005))
}

// A world in which one peer connects.
fn world(alloc: Global, failing: &[u64]) -> Result<ScriptWorld, Fail>
    ensures { IfOk result (λ world. is_some world.opening ≡ false) }
{
    let failing = NumberList::from_slice(alloc, failing)?;
    let mut events = EventList::new(alloc);
    events.push(connects())?;
    Ok(ScriptWorld::new(alloc, events, failing))
}

// Adds a file, where there is one.
fn add_file(
    alloc: Global,
    files: &mut FileList,
    name: &str,
    text: Option<&str>,
) -> Result<(), Fail> {
    if let Some(text) = text {
        let name = octets(alloc, name)?;
        let bytes = octets(alloc, text)?;
        files.push(NamedFile { name, bytes })?;
    }
    Ok(())
}

// A settings file `c` and a topology file `t`, those that there are.
pub(super) fn shelf(
    alloc: Global,
    settings: Option<&str>,
    topology: Option<&str>,
    failing: &[u64],
) -> Result<MemShelf, Fail> {
    let failing = NumberList::from_slice(alloc, failing)?;
    let mut files = FileList::new(alloc);
    add_file(alloc, &mut files, "c", settings)?;
    add_file(alloc, &mut files, "t", topology)?;
    Ok(MemShelf::new(alloc, files, failing))
}

fn make_place(alloc: Global, given: Given<'_>) -> Result<Place, Fail>
    ensures { IfOk result (λ place. is_some place.world.opening ≡ false) }
{
    let shelf = shelf(alloc, given.settings, given.topology, given.readings)?;
    let out = sink(alloc, ROOM, given.writings)?;
    let err = sink(alloc, ROOM, given.tellings)?;
    let world = world(alloc, given.world)?;
    Ok(Place {
        shelf,
        world,
        out,
        err,
    })
}

// Runs a node to its end.
fn run_in(alloc: Global, words: &[String], place: &mut Place) -> Status
    requires { is_some place.old.world.opening ≡ false }
{
    run_node(
        alloc,
        words,
        &mut place.shelf,
        &mut place.world,
        &mut place.out,
        &mut place.err,
    )
}

// Whether these parts were written, one behind the other, and nothing else.
fn are_written(written: &[u8], parts: &[&str]) -> bool {
    let mut rest = written;
    for part in parts {
        if !rest.starts_with(part.as_bytes()) {
            return false;
        }
        rest = rest.get(part.len()..).unwrap_or(b"");
    }
    rest.is_empty()
}

// Whether the first so many of the actions of a whole run were done, in their order.
fn are_done(done: &[Action], count: Option<usize>) -> bool {
    let actions = [
        Action::Peer(local(3002), PeerNote::Known),
        Action::Peer(local(3003), PeerNote::Known),
        Action::Peer(local(3004), PeerNote::Known),
        Action::Admit(Cid(1), local(3005)),
        Action::State(Cid(1), StateName::UnnegotiatedInbound),
    ];
    match count {
        Some(count) => Some(done) == actions.get(..count),
        None => true,
    }
}

fn is_left(place: &Place, wanted: Wanted<'_>) -> bool {
    are_written(place.out.bytes(), wanted.parts)
        && place.err.bytes() == wanted.told.as_bytes()
        && are_done(place.world.done().as_slice(), wanted.done)
}

// Whether a node ends so.
pub(super) fn ends(alloc: Global, given: Given<'_>, wanted: Wanted<'_>) -> Result<bool, Fail> {
    let words = strings(alloc, given.words)?;
    ends_under(alloc, &words, given, wanted)
}

// The same under words of a command line.
fn ends_under(
    alloc: Global,
    words: &[String],
    given: Given<'_>,
    wanted: Wanted<'_>,
) -> Result<bool, Fail> {
    let mut place = make_place(alloc, given)?;
    let status = run_in(alloc, words, &mut place);
    Ok(is_end(status, &place, wanted))
}

fn is_end(status: Status, place: &Place, wanted: Wanted<'_>) -> bool {
    status == wanted.status && is_left(place, wanted)
}
