use crate::kind_table::kind_named;
use crate::values::{Row, as_table, keep, number, share, tables_at};
use crate::{Apart, Due, Leaving, Parting, ScenarioRefusal};
use toml::{Table, Value};

const SECOND: u64 = 1_000;

const NOTICE: Row = Row("notice", 1, 600_000);

pub(crate) fn read_partings(
    table: &Table,
    kinds: &[Value],
    partings: &mut Vec<Parting>,
) -> Result<(), ScenarioRefusal> {
    for value in tables_at(table, "parting")? {
        keep(partings, read_parting(value, kinds)?)?;
    }
    Ok(())
}

pub(crate) fn read_leavings(
    table: &Table,
    leavings: &mut Vec<Leaving>,
) -> Result<(), ScenarioRefusal> {
    for value in tables_at(table, "leaving")? {
        keep(leavings, read_leaving(value)?)?;
    }
    Ok(())
}

fn read_parting(value: &Value, kinds: &[Value]) -> Result<Parting, ScenarioRefusal> {
    let table = as_table(
        value,
        "parting",
        &["from", "to", "share", "apart", "notice"],
    )?;
    let (from, to) = read_span(table)?;
    let apart = read_apart(table, kinds)?;
    let notice = number(Some(table), &NOTICE, Some(20_000))?;
    Ok(Parting {
        from,
        to,
        apart,
        notice,
    })
}

fn read_span(table: &Table) -> Result<(u64, u64), ScenarioRefusal> {
    let from = moment(table, "from")?;
    let to = moment(table, "to")?;
    if to < from {
        return Err(ScenarioRefusal::Wrong("to", Due::NotBelow("from")));
    }
    Ok((from, to))
}

fn read_apart(table: &Table, kinds: &[Value]) -> Result<Apart, ScenarioRefusal> {
    if table.get("apart").is_some() {
        Ok(Apart::Kind(kind_named(table, "apart", kinds)?))
    } else {
        Ok(Apart::Share(share(Some(table), "share", 500)?))
    }
}

fn read_leaving(value: &Value) -> Result<Leaving, ScenarioRefusal> {
    let table = as_table(value, "leaving", &["at", "share", "back"])?;
    let at = moment(table, "at")?;
    let share = share(Some(table), "share", 333)?;
    let back = read_back(table)?;
    Ok(Leaving { at, share, back })
}

fn read_back(table: &Table) -> Result<Option<u64>, ScenarioRefusal> {
    if table.get("back").is_some() {
        Ok(Some(moment(table, "back")?))
    } else {
        Ok(None)
    }
}

// A number of seconds, which must stand, in milliseconds.
fn moment(table: &Table, name: &'static str) -> Result<u64, ScenarioRefusal> {
    let seconds = number(Some(table), &Row(name, 0, 86_400), None)?;
    Ok(seconds.saturating_mul(SECOND))
}
