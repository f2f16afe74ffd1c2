use crate::kind_table::read_kinds;
use crate::mishap_tables::{read_leavings, read_partings};
use crate::values::{Row, as_table, check_names, number, numbers, tables_at, text_at};
use crate::{Due, Links, Provider, Scenario, ScenarioRefusal, Words};
use net_base::INTERVAL_MOST;
use std::alloc::Global;
use toml::Table;

// A minute and a day, in milliseconds.
const MINUTE: u64 = 60_000;

const NAMES: &[&str] = &[
    "seconds", "words", "links", "roots", "kind", "parting", "leaving",
];

const SECONDS: Row = Row("seconds", 1, 86_400);

const LINK_NAMES: &[&str] = &[
    "latency_least",
    "latency_most",
    "lost",
    "late",
    "again",
    "cut",
    "wait",
];

const LATENCIES: [Row; 2] = [
    Row("latency_least", 1, MINUTE),
    Row("latency_most", 1, MINUTE),
];

const DELAYS: [Row; 5] = [
    Row("lost", 0, 1_000),
    Row("late", 0, 1_000),
    Row("again", 1, MINUTE),
    Row("cut", 0, 1_000),
    Row("wait", 1, MINUTE),
];

const ROOTS: [Row; 2] = [Row("told", 0, 10_000), Row("serves", 1, INTERVAL_MOST)];

/// Reads a scenario file: a TOML table, as docs/NETWORK.md has it. The first value that is wrong is told, with what was
/// due in its place.
pub fn read_scenario(alloc: Global, bytes: &[u8]) -> Result<Scenario, ScenarioRefusal> {
    match toml::table_from_slice(alloc, bytes) {
        Ok(table) => read_table(alloc, &table),
        Err(error) if error.is_memory() => Err(ScenarioRefusal::OutOfMemory),
        Err(_) => Err(ScenarioRefusal::BadToml),
    }
}

fn read_table(alloc: Global, table: &Table) -> Result<Scenario, ScenarioRefusal> {
    check_names(table, "the file", NAMES)?;
    let mut scenario = read_alone(alloc, table)?;
    read_lists(alloc, table, &mut scenario)?;
    Ok(scenario)
}

// What stands once in a file. The lists are empty.
fn read_alone(alloc: Global, table: &Table) -> Result<Scenario, ScenarioRefusal> {
    let seconds = number(Some(table), &SECONDS, None)?;
    let words = read_words(table)?;
    let links = read_links(table)?;
    let provider = read_provider(table)?;
    Ok(Scenario {
        seconds,
        words,
        links,
        provider,
        kinds: Vec::new(alloc),
        partings: Vec::new(alloc),
        leavings: Vec::new(alloc),
    })
}

fn read_lists(
    alloc: Global,
    table: &Table,
    scenario: &mut Scenario,
) -> Result<(), ScenarioRefusal> {
    let kinds = tables_at(table, "kind")?;
    read_kinds(alloc, kinds, &mut scenario.kinds)?;
    read_partings(table, kinds, &mut scenario.partings)?;
    read_leavings(table, &mut scenario.leavings)
}

fn read_words(table: &Table) -> Result<Words, ScenarioRefusal> {
    if table.get("words").is_none() {
        return Ok(Words::Wide);
    }
    match text_at(table, "words") {
        Some("wide") => Ok(Words::Wide),
        Some("near") => Ok(Words::Near),
        _ => Err(ScenarioRefusal::Wrong("words", Due::Said("wide or near"))),
    }
}

fn read_links(table: &Table) -> Result<Links, ScenarioRefusal> {
    let table = table_at(table, "links", LINK_NAMES)?;
    let [latency_least, latency_most] = numbers(table, &LATENCIES, [20, 150])?;
    if latency_most < latency_least {
        return Err(ScenarioRefusal::Wrong("latency_most", Due::NotBelow("latency_least")));
    }
    let [lost, late, again, cut, wait] = numbers(table, &DELAYS, [0, 0, 300, 0, 3_000])?;
    Ok(Links {
        latency_least,
        latency_most,
        lost,
        late,
        again,
        cut,
        wait,
    })
}

fn read_provider(table: &Table) -> Result<Provider, ScenarioRefusal> {
    let table = table_at(table, "roots", &["told", "serves"])?;
    let [told, serves] = numbers(table, &ROOTS, [20, 3_600_000])?;
    Ok(Provider { told, serves })
}

// The table of a name, where the file has one.
fn table_at<'a>(
    table: &'a Table,
    name: &'static str,
    names: &[&str],
) -> Result<Option<&'a Table>, ScenarioRefusal> {
    match table.get(name) {
        Some(value) => Ok(Some(as_table(value, name, names)?)),
        None => Ok(None),
    }
}
