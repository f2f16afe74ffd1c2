ghost use Rattle.std.specs.Prelude.{◌≡◌, ◌-◌, ◌<◌, false, List, ℕ, length, Ok, IfOk};
ghost use Rattle.cbor_items.specs.Head.{initial_at};
ghost use Rattle.cbor_items.specs.Scan.{Skip, is_nested, skip_flat, skip_nested, skip_nested_content, skip_item};
ghost use Rattle.cbor_items.specs.Level.{skip_level};
ghost use Rattle.cbor_items.specs.Steps.{BeginsAs};

use crate::head::{Head, split_argument, split_initial};
use crate::initial::{ARRAY, BYTE_CHUNKS, MAP, TEXT_CHUNKS};
use crate::item::{is_nested, skip_item};
use crate::level::{Level, Thing};
use crate::stop::Stop;

/// Passes over what begins an item with at most so many levels: what is still to come of it, and the bytes behind.
pub(crate) fn begin_item(bytes: &[u8], depth: u8) -> Result<(Level, &[u8]), Stop>
    ensures begun { BeginsAs (λ read. (read.0, read.1.now)) (skip_item depth) (skip_item (depth - 1)) bytes.now result }
    ensures shorter { IfOk result (λ read. length read.1.now < length bytes.now) }
{
    let (initial, rest) = split_initial(bytes)?;
    if !is_nested(initial) {
        return begin_flat(bytes, initial, rest);
    }
    match depth.checked_sub(1) {
        None => Err(Stop::Deep),
        Some(inner) => begin_nested(initial, rest, inner),
    }
}

// Behind the initial byte of an array, a map or a tag.
fn begin_nested(initial: u8, bytes: &[u8], inner: u8) -> Result<(Level, &[u8]), Stop>
    ensures { BeginsAs (λ read. (read.0, read.1.now)) (skip_nested (skip_item inner) initial) (skip_item inner) bytes.now result }
{
    let (head, rest) = split_argument(initial, bytes)?;
    Ok((level_of(head), rest))
}

// What is behind the head of an array, a map or a tag.
fn level_of(head: Head) -> Level
    ensures { (item : Skip) (bytes : List ℕ) → skip_nested_content item head bytes ≡ skip_level item result bytes }
{
    match (head.major, head.indefinite) {
        (ARRAY, false) => Level::Items(u128::from(head.value)),
        (ARRAY, true) => Level::ToBreak(Thing::Item),
        (MAP, false) => Level::Items(2 * u128::from(head.value)),
        (MAP, true) => Level::ToBreak(Thing::Entry),
        _ => Level::Items(1),
    }
}

// An item that holds no other, with its initial byte and what stands behind it.
fn begin_flat<'a>(item: &'a [u8], initial: u8, bytes: &'a [u8]) -> Result<(Level, &'a [u8]), Stop>
    requires initial { initial_at item.now ≡ Ok (initial, bytes.now) }
    requires flat { is_nested initial ≡ false }
    ensures { (inner : Skip) → BeginsAs (λ read. (read.0, read.1.now)) (skip_flat initial) inner bytes.now result }
{
    match initial {
        BYTE_CHUNKS => Ok((Level::ToBreak(Thing::ByteChunk), bytes)),
        TEXT_CHUNKS => Ok((Level::ToBreak(Thing::TextChunk), bytes)),
        _ => {
            let rest = skip_item(item, 0)?;
            Ok((Level::Items(0), rest))
        }
    }
}
