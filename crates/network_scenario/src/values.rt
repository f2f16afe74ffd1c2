ghost use Rattle.std.specs.Prelude.{◌≡◌, length, IfOk};
ghost use Rattle.network_scenario.specs.Ranges.{IsIn, AreIn};

use crate::{Due, ScenarioRefusal};
use net_base::OutOfMemory;
use toml::{Table, Value};

/// A row of docs/NETWORK.md: the name of a number, and its range.
#[derive(Clone, Copy)]
pub(crate) struct Row(pub &'static str, pub u64, pub u64);

/// Numbers of a table, one of each row. Where there is no such name, or no table, it is the usual one.
pub(crate) fn numbers<const N: usize>(
    table: Option<&Table>,
    rows: &[Row],
    usual: [u64; N],
) -> Result<[u64; N], ScenarioRefusal>
    requires { length rows.now ≡ N }
    ensures { IfOk result (AreIn rows.now) }
{
    let mut found = usual;
    for place in 0..N {
        found[place] = number(table, &rows[place], Some(found[place]))?;
    }
    Ok(found)
}

/// A share, of a thousand.
pub(crate) fn share(
    table: Option<&Table>,
    name: &'static str,
    usual: u64,
) -> Result<u64, ScenarioRefusal>
    ensures { IfOk result (IsIn 0 1000) }
{
    number(table, &Row(name, 0, 1_000), Some(usual))
}

/// A number of a table. Where there is no such name, or no table, it is the usual one, and has to stand there where there
/// is none.
pub(crate) fn number(
    table: Option<&Table>,
    row: &Row,
    usual: Option<u64>,
) -> Result<u64, ScenarioRefusal>
    ensures { IfOk result (IsIn row.now.1 row.now.2) }
{
    let Row(name, least, most) = *row;
    match found_at(table, name, usual) {
        Some(number) if least <= number && number <= most => Ok(number),
        _ => Err(ScenarioRefusal::Wrong(name, Due::Whole(least, most))),
    }
}

fn found_at(table: Option<&Table>, name: &str, usual: Option<u64>) -> Option<u64> {
    let value = match table {
        Some(table) => table.get(name),
        None => None,
    };
    match value {
        Some(value) => natural(value.as_integer()?),
        None => usual,
    }
}

fn natural(number: i64) -> Option<u64> {
    if number < 0 {
        return None;
    }
    Some(number as u64)
}

/// True, or not, or the usual one where the table doesn't have the name.
pub(crate) fn flag(
    table: &Table,
    name: &'static str,
    usual: bool,
) -> Result<bool, ScenarioRefusal> {
    let Some(value) = table.get(name) else {
        return Ok(usual);
    };
    match value.as_bool() {
        Some(flag) => Ok(flag),
        None => Err(ScenarioRefusal::Wrong(name, Due::Said("true or false"))),
    }
}

/// The text of a name, none where something else stands there.
pub(crate) fn text_at<'a>(table: &'a Table, name: &str) -> Option<&'a str> {
    table.get(name)?.as_str()
}

/// The tables of a name, none where the file has no such name.
pub(crate) fn tables_at<'a>(
    table: &'a Table,
    name: &'static str,
) -> Result<&'a [Value], ScenarioRefusal> {
    let Some(value) = table.get(name) else {
        return Ok(&[]);
    };
    match value.as_array() {
        Some(values) => Ok(values.as_slice()),
        None => Err(ScenarioRefusal::Wrong(name, Due::Said("tables"))),
    }
}

/// The table that stands at a name, and has no other names than these.
pub(crate) fn as_table<'a>(
    value: &'a Value,
    name: &'static str,
    names: &[&str],
) -> Result<&'a Table, ScenarioRefusal> {
    let Some(table) = value.as_table() else {
        return Err(ScenarioRefusal::Wrong(name, Due::Said("a table")));
    };
    check_names(table, name, names)?;
    Ok(table)
}

/// A table has no other names than these.
pub(crate) fn check_names(
    table: &Table,
    of: &'static str,
    names: &[&str],
) -> Result<(), ScenarioRefusal> {
    for key in table.keys() {
        if !is_among(key.as_str(), names) {
            let due = Due::Said("a table with no other names than docs/NETWORK.md has");
            return Err(ScenarioRefusal::Wrong(of, due));
        }
    }
    Ok(())
}

fn is_among(key: &str, names: &[&str]) -> bool {
    for name in names {
        if *name == key {
            return true;
        }
    }
    false
}

/// Puts an item behind others.
pub(crate) fn keep<T: Drop>(list: &mut Vec<T>, item: T) -> Result<(), OutOfMemory> {
    list.push(item)?;
    Ok(())
}
