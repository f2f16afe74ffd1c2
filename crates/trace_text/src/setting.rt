ghost use Rattle.std.specs.Prelude.{◌≡◌, ◌<◌, length, map};
ghost use Rattle.std.specs.Option.{option_map};
ghost use Rattle.trace_text.specs.Settings.{setting as setting_row, interval, setting_of, setting_from};
ghost use Rattle.trace_text.specs.Views.{row_view, found_view};

use net_base::INTERVAL_MOST;

/// A setting's name, its least and its greatest value.
#[derive(Clone, Copy)]
pub struct Row {
    pub name: &'static str,
    pub least: u64,
    pub most: u64,
}

/// A setting that was found: its place, from 1, and its range.
#[derive(Clone, Copy)]
pub struct Found {
    pub place: u8,
    pub row: Row,
}

/// The setting of a name, under a hard limit.
pub fn setting_named(hard: u64, name: &[u8]) -> Option<Found>
    ensures { option_map found_view result ≡ setting_of hard name.now }
{
    let rows = [
        setting("magic", 0, 4_294_967_295),
        setting("initiatoronly", 0, 1),
        setting("sharing", 0, 1),
        setting("hard", 1, 10_000),
        setting("soft", 0, hard),
        time("delay"),
        time("idle"),
        time("timewait"),
        time("handshake"),
        time("reply"),
        time("backoff"),
        time("sharegap"),
        setting("shares", 0, 8),
    ];
    find(&rows, name)
}

fn setting(name: &'static str, least: u64, most: u64) -> Row
    ensures { row_view result ≡ setting_row name.now least most }
{
    Row { name, least, most }
}

// A time in milliseconds, up to a day.
fn time(name: &'static str) -> Row
    ensures { row_view result ≡ interval name.now }
{
    setting(name, 1, INTERVAL_MOST)
}

fn find(rows: &[Row], name: &[u8]) -> Option<Found>
    requires { length rows.now < 255 }
    ensures { option_map found_view result ≡ setting_from 1 name.now (map row_view rows.now) }
{
    let mut place = 1;
    for row in rows {
        if row.name.as_bytes() == name {
            return Some(Found { place, row: *row });
        }
        place += 1;
    }
    None
}
