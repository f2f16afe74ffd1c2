ghost use Rattle.std.specs.Prelude.{◌≡◌, ◌⊎◌, bytes_eq};
ghost use Rattle.std.specs.List.{list_any};
ghost use Rattle.std.specs.Option.{option_map};
ghost use Rattle.toml.specs.Data.{get_member, as_bool};
ghost use Rattle.toml.specs.Errors.{IsMemory};
ghost use Rattle.toml.specs.View.{view, table_view};
ghost use Rattle.node_settings.specs.declared.config_refusal.ConfigRefusal.TheVariants.{BadToml as NoToml, OutOfMemory as NoMemory};
ghost use Rattle.node_settings.specs.Reading.{optional};
ghost use Rattle.node_settings.specs.Config.{is_setting, has_known_names, whole_number, number_at, known_names, own_in, settings_in, checked_settings_in, targets_in, checked_targets_in, interval_in, config_in, refused, config_of, IsConfigOr};

use crate::{Config, ConfigRefusal};
use net_base::{Addr, Field, INTERVAL_MOST, Settings, Targets};
use std::alloc::Global;
use toml::{Table, Value};
use trace_text::read_address;

// What a value counts as that is no whole number, or is below 0: no range has it.
const OUT_OF_RANGE: u64 = u64::MAX;

/// Reads a settings file: a TOML table, whose format is this project's own. A name that is no setting is refused before
/// all else, then the first field that is missing, of another type or out of its range. A byte-order mark is passed over.
pub fn read_config(alloc: Global, bytes: &[u8]) -> Result<Config, ConfigRefusal>
    ensures { IsConfigOr (config_of bytes.now) result }
{
    match toml::table_from_slice(alloc, bytes) {
        Ok(table) => read_document(&table),
        Err(error) => Err(refusal_of(&error)),
    }
}

fn refusal_of(error: &toml::de::Error) -> ConfigRefusal
    ensures { ((result ≡ NoMemory) × IsMemory error.now) ⊎ ((result ≡ NoToml) × ¬ IsMemory error.now) }
{
    if error.is_memory() {
        ConfigRefusal::OutOfMemory
    } else {
        ConfigRefusal::BadToml
    }
}

fn read_document(table: &Table) -> Result<Config, ConfigRefusal>
    ensures { result ≡ refused (config_in (table_view table.now)) }
{
    read_table(table).map_err(ConfigRefusal::BadSetting)
}

fn read_table(table: &Table) -> Result<Config, Field>
    ensures { result ≡ config_in (table_view table.now) }
{
    check_names(table)?;
    let own = read_own(table)?;
    let settings = read_settings(table, own)?;
    let targets = read_targets(table)?;
    let rootttl = interval(table, "rootttl", 3_600_000, Field::Rootttl)?;
    let tick = interval(table, "tick", 1_000, Field::Tick)?;
    let seed = whole_or(table, "seed", 0, Field::Seed)?;
    let announce = flag_or(table, "announce", true, Field::Announce)?;
    Ok(Config {
        settings,
        targets,
        rootttl,
        tick,
        seed,
        announce,
    })
}

fn check_names(table: &Table) -> Result<(), Field>
    ensures { result ≡ known_names (table_view table.now) }
{
    if has_known_names(table) {
        Ok(())
    } else {
        Err(Field::Unknown)
    }
}

fn has_known_names(table: &Table) -> bool
    ensures { result ≡ has_known_names (table_view table.now) }
{
    table.keys().all(|name| is_setting(name.as_str()))
}

fn is_setting(name: &str) -> bool
    ensures { result ≡ is_setting name.now }
{
    let names = [
        "own",
        "magic",
        "initiatoronly",
        "sharing",
        "hard",
        "soft",
        "delay",
        "idle",
        "timewait",
        "handshake",
        "reply",
        "backoff",
        "sharegap",
        "shares",
        "root",
        "known",
        "established",
        "active",
        "rootttl",
        "tick",
        "seed",
        "announce",
    ];
    is_among(name, &names)
}

fn is_among(name: &str, names: &[&str]) -> bool
    ensures { result ≡ list_any (λ other. bytes_eq name.now other.now) names.now }
{
    names.iter().any(|other| name == *other)
}

fn read_own(table: &Table) -> Result<Addr, Field>
    ensures { result ≡ own_in (table_view table.now) }
{
    let Some(value) = find(table, "own") else {
        return Err(Field::Own);
    };
    let Some(text) = value.as_str() else {
        return Err(Field::Own);
    };
    read_address(2, text.as_bytes()).ok_or(Field::Own)
}

fn read_settings(table: &Table, own: Addr) -> Result<Settings, Field>
    ensures { result ≡ checked_settings_in (table_view table.now) own }
{
    let settings = settings_in(table, own);
    match settings.check() {
        None => Ok(settings),
        Some(field) => Err(field),
    }
}

fn settings_in(table: &Table, own: Addr) -> Settings
    ensures { result ≡ settings_in (table_view table.now) own }
{
    let usual = Settings::usual(own);
    let hard = number_or(table, "hard", usual.hard);
    Settings {
        version: usual.version,
        own,
        magic: number_or(table, "magic", usual.magic),
        initiator_only: number_or(table, "initiatoronly", usual.initiator_only),
        sharing: number_or(table, "sharing", usual.sharing),
        hard,
        soft: number_or(table, "soft", hard.min(usual.soft)),
        delay: number_or(table, "delay", usual.delay),
        idle: number_or(table, "idle", usual.idle),
        timewait: number_or(table, "timewait", usual.timewait),
        handshake: number_or(table, "handshake", usual.handshake),
        reply: number_or(table, "reply", usual.reply),
        backoff: number_or(table, "backoff", usual.backoff),
        sharegap: number_or(table, "sharegap", usual.sharegap),
        shares: number_or(table, "shares", usual.shares),
    }
}

fn read_targets(table: &Table) -> Result<Targets, Field>
    ensures { result ≡ checked_targets_in (table_view table.now) }
{
    let root = whole_or(table, "root", 10, Field::Root)?;
    let targets = targets_in(table, root);
    match targets.check() {
        None => Ok(targets),
        Some(field) => Err(field),
    }
}

fn targets_in(table: &Table, root: u64) -> Targets
    ensures { result ≡ targets_in (table_view table.now) root }
{
    Targets {
        root,
        known: number_or(table, "known", 20),
        established: number_or(table, "established", 10),
        active: number_or(table, "active", 5),
    }
}

fn interval(table: &Table, name: &str, default: u64, field: Field) -> Result<u64, Field>
    ensures { result ≡ interval_in field (table_view table.now) name.now default }
{
    let time = number_or(table, name, default);
    if 1 <= time && time <= INTERVAL_MOST {
        Ok(time)
    } else {
        Err(field)
    }
}

fn whole_or(table: &Table, name: &str, default: u64, field: Field) -> Result<u64, Field>
    ensures { result ≡ optional field whole_number default (get_member name.now (table_view table.now)) }
{
    match find(table, name) {
        None => Ok(default),
        Some(value) => whole_number(value).ok_or(field),
    }
}

fn flag_or(table: &Table, name: &str, default: bool, field: Field) -> Result<bool, Field>
    ensures { result ≡ optional field as_bool default (get_member name.now (table_view table.now)) }
{
    match find(table, name) {
        None => Ok(default),
        Some(value) => value.as_bool().ok_or(field),
    }
}

fn number_or(table: &Table, name: &str, default: u64) -> u64
    ensures { result ≡ number_at (table_view table.now) name.now default }
{
    match find(table, name) {
        None => default,
        Some(value) => whole_number(value).unwrap_or(OUT_OF_RANGE),
    }
}

fn whole_number(value: &Value) -> Option<u64>
    ensures { result ≡ whole_number (view value.now) }
{
    let number = value.as_integer()?;
    u64::try_from(number).ok()
}

fn find<'a>(table: &'a Table, name: &str) -> Option<&'a Value>
    ensures { option_map (λ value. view value.now) result ≡ get_member name.now (table_view table.now) }
{
    table.get(name)
}
