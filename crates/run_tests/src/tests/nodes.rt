mod place;
mod shut;

use self::place::{Given, Wanted, ends};
use net_base::Field;
use std::alloc::Global;
use std::process::Abort;
use std::test::Fail;
use tool_status::{Status, What, Which};

const SETTINGS: &str = "own = \"127.0.0.1:3001\"\n";

const TOPOLOGY: &str = "{\"localRoots\":[
 {\"accessPoints\":[{\"address\":\"127.0.0.1\",\"port\":3002},{\"address\":\"127.0.0.1\",\"port\":3003}],
  \"advertise\":false,\"trustable\":true,\"hotValency\":1,\"warmValency\":2},
 {\"accessPoints\":[{\"address\":\"127.0.0.1\",\"port\":3004}],\"advertise\":true,\"valency\":1}],
 \"publicRoots\":[{\"accessPoints\":[{\"address\":\"relays.example\",\"port\":3001}],\"advertise\":false}],
 \"useLedgerAfterSlot\":128908827}
";

const SETTINGS_WRITTEN: &str = "trace 2
own 127.0.0.1:3001
set magic 42
set initiatoronly 0
set sharing 1
set hard 512
set soft 384
set delay 5000
set idle 5000
set timewait 60000
set handshake 10000
set reply 10000
set backoff 5000
set sharegap 900000
set shares 2
";

const TARGETS: &str = "targets 10 20 10 5\n";

const LOCALS: &str = "locals / 1 2 - 127.0.0.1:3002 127.0.0.1:3003 / 1 1 + 127.0.0.1:3004
> peer 127.0.0.1:3002 known
> peer 127.0.0.1:3003 known
> peer 127.0.0.1:3004 known
";

const ACCEPTED: &str =
    "accepted 127.0.0.1:3005\n> admit 1 127.0.0.1:3005\n> state 1 UnnegotiatedInbound\n";

const NOTHING: &[&str] = &[];

// What is written before the local root peers.
const HEAD: &[&str] = &[SETTINGS_WRITTEN, TARGETS];

// Before the peer that connects.
const BEGUN: &[&str] = &[SETTINGS_WRITTEN, TARGETS, LOCALS];

const CONNECTED: &[&str] = &[SETTINGS_WRITTEN, TARGETS, LOCALS, ACCEPTED];

const WHOLE: &[&str] = &[SETTINGS_WRITTEN, TARGETS, LOCALS, ACCEPTED, "end\n"];

const EVENTLESS: &[&str] = &[SETTINGS_WRITTEN, TARGETS, LOCALS, "end\n"];

const WITHOUT_LOCALS: &[&str] = &[SETTINGS_WRITTEN, TARGETS, "locals\n", "end\n"];

// What of a node is other than usual.
#[derive(Clone, Copy)]
enum Change<'a> {
    Nothing,
    Words(&'a [&'a str]),
    Files(Option<&'a str>, Option<&'a str>),
    // This topology, and no event.
    Topology(&'a str),
    // The calls that fail: of the shelf, of the world, of what is written, and of what is told.
    Readings(&'a [u64]),
    World(&'a [u64]),
    Writings(&'a [u64]),
    Tellings(&'a [u64]),
}

const NO_EVENT: &[&str] = &["node", "c", "t", "0"];

// The usual files, of which no call fails.
const USUAL: Given<'static> = Given {
    words: &["node", "c", "t", "900000"],
    settings: Some(SETTINGS),
    topology: Some(TOPOLOGY),
    readings: &[],
    world: &[],
    writings: &[],
    tellings: &[],
};

fn changed<'a>(change: Change<'a>) -> Given<'a> {
    match change {
        Change::Nothing => USUAL,
        Change::Words(words) => Given { words, ..USUAL },
        Change::Files(settings, topology) => Given {
            settings,
            topology,
            ..USUAL
        },
        Change::Topology(topology) => Given {
            words: NO_EVENT,
            topology: Some(topology),
            ..USUAL
        },
        Change::Readings(readings) => Given { readings, ..USUAL },
        Change::World(world) => Given { world, ..USUAL },
        Change::Writings(writings) => Given { writings, ..USUAL },
        Change::Tellings(tellings) => Given { tellings, ..USUAL },
    }
}

// How a node ends.
#[derive(Clone, Copy)]
enum End<'a> {
    // What was written and told, and how many of the usual actions were done, where they are.
    Done(&'a [&'a str], &'a str, Option<usize>),
    // What was written, and how many actions were done.
    WorldFault(&'a [&'a str], usize),
    WriteFault(&'a [&'a str], usize),
    // Before its world is opened and anything is written, and this is told.
    Refused(Status, &'a str),
}

fn left_at<'a>(end: End<'a>) -> Wanted<'a> {
    let (status, parts, told, done) = match end {
        End::Done(parts, told, done) => (Status::Done, parts, told, done),
        End::WorldFault(parts, done) => {
            let told = "unresolved 1\nworld fault\n";
            (Status::WorldFault, parts, told, Some(done))
        }
        End::WriteFault(parts, done) => {
            let told = "unresolved 1\nwrite fault\n";
            (Status::WriteFault, parts, told, Some(done))
        }
        End::Refused(status, told) => (status, NOTHING, told, Some(0)),
    };
    Wanted {
        status,
        parts,
        told,
        done,
    }
}

fn expect_each<'a>(
    rt: &impl Abort,
    alloc: Global,
    rows: &'a [(Change<'a>, End<'a>)],
) -> Result<(), Fail> {
    for (n, (change, end)) in rows.iter().enumerate() {
        let holds = ends(alloc, changed(*change), left_at(*end))?;
        assert!(rt; holds, "at row {n}");
    }
    Ok(())
}

// The calls of the world: an action for each of three peers, the event, two actions for it, and the end.
const WORLD_FAULTS: [(Change, End); 7] = [
    (Change::World(&[1]), End::WorldFault(BEGUN, 0)),
    (Change::World(&[2]), End::WorldFault(BEGUN, 1)),
    (Change::World(&[3]), End::WorldFault(BEGUN, 2)),
    (Change::World(&[4]), End::WorldFault(BEGUN, 3)),
    (Change::World(&[5]), End::WorldFault(CONNECTED, 3)),
    (Change::World(&[6]), End::WorldFault(CONNECTED, 4)),
    (Change::World(&[7]), End::WorldFault(CONNECTED, 5)),
];

#[test]
fn each_call_of_a_world_fails_in_turn(rt: HostRuntime) -> Result<(), Fail> {
    expect_each(&rt, rt.alloc(), &WORLD_FAULTS)
}

// What is written of an event is put before its actions are done.
const WRITE_FAULTS: [(Change, End); 5] = [
    (Change::Writings(&[1]), End::WriteFault(&[], 0)),
    (
        Change::Writings(&[2]),
        End::WriteFault(&[SETTINGS_WRITTEN], 0),
    ),
    (Change::Writings(&[3]), End::WriteFault(HEAD, 0)),
    (Change::Writings(&[4]), End::WriteFault(BEGUN, 3)),
    (Change::Writings(&[5]), End::WriteFault(CONNECTED, 5)),
];

#[test]
fn each_writing_of_a_node_fails_in_turn(rt: HostRuntime) -> Result<(), Fail> {
    expect_each(&rt, rt.alloc(), &WRITE_FAULTS)
}

// A text that is not taken changes no status.
const DONE: [(Change, End); 3] = [
    (Change::Nothing, End::Done(WHOLE, "unresolved 1\n", Some(5))),
    (Change::Tellings(&[1]), End::Done(WHOLE, "", Some(5))),
    (
        Change::Words(NO_EVENT),
        End::Done(EVENTLESS, "unresolved 1\n", Some(3)),
    ),
];

#[test]
fn a_node_runs_to_its_end(rt: HostRuntime) -> Result<(), Fail> {
    expect_each(&rt, rt.alloc(), &DONE)
}

// An IPv6 address is written in full.
const SHORTENED: [(Change, End); 1] = [(
    Change::Topology(
        "{\"localRoots\":[{\"accessPoints\":[{\"address\":\"FE80::1\",\"port\":1}]}]}",
    ),
    End::Done(
        &[
            SETTINGS_WRITTEN,
            TARGETS,
            "locals / 1 1 - [fe80:0:0:0:0:0:0:1]:1\n> peer [fe80:0:0:0:0:0:0:1]:1 known\n",
            "end\n",
        ],
        "unresolved 0\n",
        None,
    ),
)];

#[test]
fn an_address_that_is_shortened_is_written_in_full(rt: HostRuntime) -> Result<(), Fail> {
    expect_each(&rt, rt.alloc(), &SHORTENED)
}

const THREE_ACCESS_POINTS: &str = "{\"publicRoots\":[{\"accessPoints\":[
 {\"address\":\"a\",\"port\":1},{\"address\":\"127.0.0.1\",\"port\":2},{\"address\":\"b\",\"port\":3}]}]}";

// Names, none and two, and no local root.
const UNRESOLVED: [(Change, End); 2] = [
    (
        Change::Topology("{}"),
        End::Done(WITHOUT_LOCALS, "unresolved 0\n", Some(0)),
    ),
    (
        Change::Topology(THREE_ACCESS_POINTS),
        End::Done(WITHOUT_LOCALS, "unresolved 2\n", Some(0)),
    ),
];

#[test]
fn names_are_told_as_unresolved(rt: HostRuntime) -> Result<(), Fail> {
    expect_each(&rt, rt.alloc(), &UNRESOLVED)
}

// Files that are refused, and what is named of them.
fn expect_bad<'a>(
    rt: &impl Abort,
    alloc: Global,
    rows: &'a [(&'a str, &'a str, What, &'a str)],
) -> Result<(), Fail> {
    for (settings, topology, what, told) in rows {
        let status = Status::BadSettings { what: *what };
        let files = Change::Files(Some(*settings), Some(*topology));
        expect_each(rt, alloc, &[(files, End::Refused(status, *told))])?;
    }
    Ok(())
}

const NO_PORT: &str = "{\"localRoots\":[{\"accessPoints\":[{\"address\":\"x\"}]}]}";

// Where both are refused the settings are named, and of their names the one that is not known before all values.
const BAD_FILES: [(&str, &str, What, &str); 8] = [
    (
        "own = 5\n",
        TOPOLOGY,
        What::Named(Field::Own),
        "settings refused: own\n",
    ),
    (
        "own = \"127.0.0.1:3001\"\nhard = 0\n",
        NO_PORT,
        What::Named(Field::Hard),
        "settings refused: hard\n",
    ),
    (
        "own = 5\ncolour = 1\n",
        TOPOLOGY,
        What::Named(Field::Unknown),
        "settings refused: unknown\n",
    ),
    (
        "own = \"127.0.0.1:3001\"\nhard = 0\ncolour = 1\n",
        TOPOLOGY,
        What::Named(Field::Unknown),
        "settings refused: unknown\n",
    ),
    ("own =\n", "[]", What::Toml, "settings refused: toml\n"),
    (SETTINGS, "[]", What::Json, "settings refused: json\n"),
    (
        SETTINGS,
        "{\"localRoots\":[{}]}",
        What::Named(Field::AccessPoints),
        "settings refused: accessPoints\n",
    ),
    (
        SETTINGS,
        NO_PORT,
        What::Named(Field::Port),
        "settings refused: port\n",
    ),
];

#[test]
fn files_are_refused(rt: HostRuntime) -> Result<(), Fail> {
    expect_bad(&rt, rt.alloc(), &BAD_FILES)
}

const NO_SETTINGS: End = End::Refused(
    Status::FileFault { which: Which::Conf },
    "file fault settings\n",
);

const NO_TOPOLOGY: End = End::Refused(
    Status::FileFault { which: Which::Topo },
    "file fault topology\n",
);

// A file that is not there and one that is refused, in each order.
const ABSENT: [(Change, End); 4] = [
    (Change::Files(None, None), NO_SETTINGS),
    (Change::Files(None, Some("[]")), NO_SETTINGS),
    (Change::Files(Some(SETTINGS), None), NO_TOPOLOGY),
    (
        Change::Files(Some("own ="), None),
        End::Refused(
            Status::BadSettings { what: What::Toml },
            "settings refused: toml\n",
        ),
    ),
];

#[test]
fn the_settings_decide_before_the_topology(rt: HostRuntime) -> Result<(), Fail> {
    expect_each(&rt, rt.alloc(), &ABSENT)
}

// The readings of the shelf: the settings, and the topology.
const READ_FAULTS: [(Change, End); 2] = [
    (Change::Readings(&[1]), NO_SETTINGS),
    (Change::Readings(&[2]), NO_TOPOLOGY),
];

#[test]
fn each_reading_of_a_shelf_fails_in_turn(rt: HostRuntime) -> Result<(), Fail> {
    expect_each(&rt, rt.alloc(), &READ_FAULTS)
}

// Files of which one has a byte too many.
fn expect_too_large<'a>(
    rt: &impl Abort,
    alloc: Global,
    settings: &'a str,
    topology: &'a str,
    which: Which,
    told: &'a str,
) -> Result<(), Fail> {
    let size = 1_048_577;
    let status = Status::FileTooLarge { which, size };
    let files = Change::Files(Some(settings), Some(topology));
    expect_each(rt, alloc, &[(files, End::Refused(status, told))])
}

#[test]
fn a_file_is_too_large(rt: HostRuntime) -> Result<(), Fail> {
    let alloc = rt.alloc();
    let blanks = " ".repeat(alloc, 1_048_577)?;
    let told = "file too large settings 1048577\n";
    expect_too_large(&rt, alloc, &blanks, TOPOLOGY, Which::Conf, told)?;
    let told = "file too large topology 1048577\n";
    expect_too_large(&rt, alloc, SETTINGS, &blanks, Which::Topo, told)
}

const USAGE: End = End::Refused(
    Status::Usage,
    "usage: replay | check | pair | clients MAGIC LIMIT WAIT | drill SEED COUNT | node CONF TOPO COUNT\n",
);

const NO_NODES: [(Change, End); 6] = [
    (Change::Words(&[]), USAGE),
    (Change::Words(&["node", "c", "t"]), USAGE),
    (Change::Words(&["node", "c", "t", "900001"]), USAGE),
    (Change::Words(&["node", "c", "t", "01"]), USAGE),
    (Change::Words(&["node", "c", "t", "0", "0"]), USAGE),
    (Change::Words(&["replay", "c", "t", "0"]), USAGE),
];

#[test]
fn other_words_are_no_node(rt: HostRuntime) -> Result<(), Fail> {
    expect_each(&rt, rt.alloc(), &NO_NODES)
}
