use crate::values::{Row, as_table, flag, keep, number, numbers, text_at};
use crate::{Due, Friends, Kind, Role, ScenarioRefusal};
use net_base::{Addr, INTERVAL_MOST, Ip, OutOfMemory, Settings, Targets};
use std::alloc::Global;
use toml::{Table, Value};

const NAMES: &[&str] = &[
    "name",
    "role",
    "count",
    "within",
    "hidden",
    "public",
    "tick",
    "holds",
    "root",
    "known",
    "established",
    "active",
    "friends",
    "friends_of",
    "friends_hot",
    "friends_warm",
    "friends_told",
    "hard",
    "soft",
    "delay",
    "idle",
    "timewait",
    "handshake",
    "reply",
    "backoff",
    "sharegap",
    "shares",
    "sharing",
    "initiatoronly",
];

const NODES_MOST: u64 = 100_000;

const COUNT: Row = Row("count", 0, NODES_MOST);

const WITHIN: Row = Row("within", 1, INTERVAL_MOST);

const HABITS: [Row; 3] = [
    Row("public", 0, NODES_MOST),
    Row("tick", 1, INTERVAL_MOST),
    Row("holds", 0, 10_000),
];

const HARD: Row = Row("hard", 0, 10_000);

// The bounds of each are tested with all of them.
const SETTINGS: [Row; 11] = [
    Row("soft", 0, 10_000),
    Row("delay", 0, INTERVAL_MOST),
    Row("idle", 0, INTERVAL_MOST),
    Row("timewait", 0, INTERVAL_MOST),
    Row("handshake", 0, INTERVAL_MOST),
    Row("reply", 0, INTERVAL_MOST),
    Row("backoff", 0, INTERVAL_MOST),
    Row("sharegap", 0, INTERVAL_MOST),
    Row("shares", 0, INTERVAL_MOST),
    Row("sharing", 0, INTERVAL_MOST),
    Row("initiatoronly", 0, INTERVAL_MOST),
];

const TARGETS: [Row; 4] = [
    Row("root", 0, 10_000),
    Row("known", 0, 10_000),
    Row("established", 0, 10_000),
    Row("active", 0, 10_000),
];

const FRIENDS: Row = Row("friends", 0, 100);

const VALENCIES: [Row; 2] = [Row("friends_hot", 0, 100), Row("friends_warm", 0, 100)];

pub(crate) fn read_kinds(
    alloc: Global,
    values: &[Value],
    kinds: &mut Vec<Kind>,
) -> Result<(), ScenarioRefusal> {
    for value in values {
        let kind = read_kind(alloc, value, values)?;
        keep(kinds, kind)?;
    }
    Ok(())
}

// What the nodes of a kind do, and how many they are.
#[derive(Clone, Copy)]
struct Habits {
    role: Role,
    count: u64,
    within: u64,
    hidden: bool,
    public: u64,
    tick: u64,
    holds: u64,
}

fn read_kind(alloc: Global, value: &Value, all: &[Value]) -> Result<Kind, ScenarioRefusal> {
    let table = as_table(value, "kind", NAMES)?;
    let Some(name) = text_at(table, "name") else {
        return Err(ScenarioRefusal::Wrong("name", Due::Said("a text")));
    };
    let settings = read_settings(table)?;
    let targets = read_targets(table)?;
    let friends = read_friends(table, all)?;
    let habits = read_habits(table)?;
    Ok(Kind {
        name: owned(alloc, name)?,
        role: habits.role,
        count: habits.count,
        within: habits.within,
        hidden: habits.hidden,
        public: habits.public,
        tick: habits.tick,
        holds: habits.holds,
        settings,
        targets,
        friends,
    })
}

fn read_habits(table: &Table) -> Result<Habits, ScenarioRefusal> {
    let count = number(Some(table), &COUNT, None)?;
    let role = read_role(table)?;
    let within = number(Some(table), &WITHIN, Some(10_000))?;
    let hidden = flag(table, "hidden", false)?;
    let [public, tick, holds] = numbers(Some(table), &HABITS, [0, 1_000, 0])?;
    Ok(Habits {
        role,
        count,
        within,
        hidden,
        public,
        tick,
        holds,
    })
}

fn owned(alloc: Global, text: &str) -> Result<String, OutOfMemory> {
    Ok(String::from_str(alloc, text)?)
}

fn read_role(table: &Table) -> Result<Role, ScenarioRefusal> {
    if table.get("role").is_none() {
        return Ok(Role::Honest);
    }
    match text_at(table, "role") {
        Some("honest") => Ok(Role::Honest),
        Some("answering") => Ok(Role::Answering),
        Some("silent") => Ok(Role::Silent),
        _ => Err(ScenarioRefusal::Wrong("role", Due::Said("honest, answering or silent"))),
    }
}

fn read_settings(table: &Table) -> Result<Settings, ScenarioRefusal> {
    let nobody = Addr {
        ip: Ip::V4(0),
        port: 3001,
    };
    let usual = Settings::usual(nobody);
    let hard = number(Some(table), &HARD, Some(usual.hard))?;
    let usual_numbers = [
        hard.min(usual.soft),
        usual.delay,
        usual.idle,
        usual.timewait,
        usual.handshake,
        usual.reply,
        usual.backoff,
        usual.sharegap,
        usual.shares,
        usual.sharing,
        usual.initiator_only,
    ];
    let [
        soft,
        delay,
        idle,
        timewait,
        handshake,
        reply,
        backoff,
        sharegap,
        shares,
        sharing,
        initiator_only,
    ] = numbers(Some(table), &SETTINGS, usual_numbers)?;
    let settings = Settings {
        hard,
        soft,
        delay,
        idle,
        timewait,
        handshake,
        reply,
        backoff,
        sharegap,
        shares,
        sharing,
        initiator_only,
        ..usual
    };
    match settings.check() {
        None => Ok(settings),
        Some(field) => Err(ScenarioRefusal::Wrong("kind", Due::Bounded(field))),
    }
}

fn read_targets(table: &Table) -> Result<Targets, ScenarioRefusal> {
    let [root, known, established, active] = numbers(Some(table), &TARGETS, [10, 20, 10, 5])?;
    let targets = Targets {
        root,
        known,
        established,
        active,
    };
    match targets.check() {
        None => Ok(targets),
        Some(field) => Err(ScenarioRefusal::Wrong("kind", Due::Bounded(field))),
    }
}

fn read_friends(table: &Table, all: &[Value]) -> Result<Option<Friends>, ScenarioRefusal> {
    let count = number(Some(table), &FRIENDS, Some(0))?;
    if count == 0 {
        return Ok(None);
    }
    let kind = kind_named(table, "friends_of", all)?;
    let [hot, warm] = numbers(Some(table), &VALENCIES, [1, 1])?;
    let advertise = flag(table, "friends_told", true)?;
    Ok(Some(Friends {
        count,
        kind,
        hot,
        warm,
        advertise,
    }))
}

/// The place of the kind whose name stands at a name.
pub(crate) fn kind_named(
    table: &Table,
    name: &'static str,
    all: &[Value],
) -> Result<usize, ScenarioRefusal> {
    if let Some(title) = text_at(table, name) {
        for (place, kind) in all.iter().enumerate() {
            if is_named(kind, title) {
                return Ok(place);
            }
        }
    }
    Err(ScenarioRefusal::Wrong(name, Due::Said("the name of a kind")))
}

fn is_named(kind: &Value, title: &str) -> bool {
    match kind.as_table() {
        Some(table) => text_at(table, "name") == Some(title),
        None => false,
    }
}
