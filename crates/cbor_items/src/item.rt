ghost use Rattle.std.specs.Prelude.{◌≡◌, ◌<◌, ◌==◌, length};
ghost use Rattle.cbor_items.specs.Reading.{Gives};
ghost use Rattle.cbor_items.specs.Head.{argument_at};
ghost use Rattle.cbor_items.specs.Scan.{skip_bytes, skip_row, skip_to_break, skip_chunk, skip_flat, skip_nested, is_nested, is_small, skip_item};
ghost use Rattle.cbor_items.specs.Break.{IsBreak};
ghost use Rattle.cbor_items.specs.Element.{element_of};

use crate::head::{split_argument, split_initial};
use crate::initial::{ARRAY, BREAK, BYTES, MAP, TAG, TEXT};
use crate::stop::Stop;

/// How many arrays, maps and tags may stand inside each other.
pub(crate) const LEVEL_LIMIT: u8 = 64;

/// What arrays and maps are rows of.
#[derive(Clone, Copy)]
enum Element {
    Item,
    /// A key and its value.
    Entry,
}

/// Passes over an item with at most so many arrays, maps and tags inside each other.
#[cycle(item)]
#[inline(always)]
pub(crate) fn skip_item(bytes: &[u8], depth: u8) -> Result<&[u8], Stop>
    ensures { Gives (λ rest. rest.now) result (skip_item depth bytes.now) }
{
    let (initial, rest) = split_initial(bytes)?;
    if !is_nested(initial) {
        return skip_flat(initial, rest);
    }
    match depth.checked_sub(1) {
        None => Err(Stop::Deep),
        Some(inner) => skip_nested(initial, rest, inner),
    }
}

// Passes over what stands behind the initial byte of an array, a map or a tag. Each item in it has at most so
// many arrays, maps and tags inside each other.
#[tactic(auto, unfolding(crate::specs::Scan::skip_nested_content))]
#[cycle(item)]
#[inline(never)]
fn skip_nested(initial: u8, bytes: &[u8], inner: u8) -> Result<&[u8], Stop>
    ensures { Gives (λ rest. rest.now) result (skip_nested (skip_item inner) initial bytes.now) }
{
    let (head, rest) = split_argument(initial, bytes)?;
    match (head.major, head.indefinite) {
        (ARRAY, false) => skip_elements(Element::Item, head.value, rest, inner),
        (ARRAY, true) => skip_elements_to_break(Element::Item, rest, inner),
        (MAP, false) => skip_elements(Element::Entry, head.value, rest, inner),
        (MAP, true) => skip_elements_to_break(Element::Entry, rest, inner),
        _ => skip_item(rest, inner),
    }
}

#[cycle(item)]
fn skip_elements(element: Element, count: u64, bytes: &[u8], inner: u8) -> Result<&[u8], Stop>
    ensures { Gives (λ rest. rest.now) result (skip_row (element_of (skip_item inner) element) count bytes.now) }
{
    let mut rest = bytes;
    for _ in 0..count {
        rest = skip_element(element, rest, inner)?;
    }
    Ok(rest)
}

#[cycle(item)]
fn skip_elements_to_break(element: Element, bytes: &[u8], inner: u8) -> Result<&[u8], Stop>
    ensures { Gives (λ rest. rest.now) result (skip_to_break (element_of (skip_item inner) element) (length bytes.now) bytes.now) }
{
    let mut rest = bytes;
    // each one takes a byte at least
    for _ in 0..bytes.len() {
        match split_break(rest)? {
            Some(after) => return Ok(after),
            None => rest = skip_element(element, rest, inner)?,
        }
    }
    Err(Stop::More)
}

#[cycle(item)]
#[inline(always)]
fn skip_element(element: Element, bytes: &[u8], inner: u8) -> Result<&[u8], Stop>
    ensures { Gives (λ rest. rest.now) result (element_of (skip_item inner) element bytes.now) }
{
    match element {
        Element::Item => skip_held(bytes, inner),
        Element::Entry => {
            let rest = skip_held(bytes, inner)?;
            skip_held(rest, inner)
        }
    }
}

// Passes over an item that stands in another. Most are a single byte, and then nothing is called.
#[cycle(item)]
#[inline(always)]
fn skip_held(bytes: &[u8], depth: u8) -> Result<&[u8], Stop>
    ensures { Gives (λ rest. rest.now) result (skip_item depth bytes.now) }
{
    match bytes {
        [initial, rest @ ..] if is_small(*initial) => Ok(rest),
        _ => skip_item(bytes, depth),
    }
}

// Whether an item is its initial byte alone: a small number or a simple value.
#[inline(always)]
fn is_small(initial: u8) -> bool
    ensures { result ≡ is_small initial }
{
    initial % 32 < 24 && matches!(initial / 32, 0 | 1 | 7)
}

// Passes over what stands behind the initial byte of an item that holds no other.
#[tactic(auto, unfolding(crate::specs::Scan::skip_flat_content))]
#[inline(always)]
fn skip_flat(initial: u8, bytes: &[u8]) -> Result<&[u8], Stop>
    ensures { Gives (λ rest. rest.now) result (skip_flat initial bytes.now) }
{
    let (head, rest) = split_argument(initial, bytes)?;
    match (head.major, head.indefinite) {
        (BYTES | TEXT, false) => skip_bytes(head.value, rest),
        (BYTES | TEXT, true) => skip_chunks(head.major, rest),
        (_, false) => Ok(rest),
        // a break, which is no item
        (_, true) => Err(Stop::Bad),
    }
}

fn skip_bytes(count: u64, bytes: &[u8]) -> Result<&[u8], Stop>
    ensures { Gives (λ rest. rest.now) result (skip_bytes count bytes.now) }
{
    match usize::try_from(count) {
        Ok(count) if count <= bytes.len() => Ok(&bytes[count..]),
        _ => Err(Stop::More),
    }
}

// Passes over the chunks of an indefinite string, and over the break behind them.
#[inline(never)]
fn skip_chunks(major: u8, bytes: &[u8]) -> Result<&[u8], Stop>
    ensures { Gives (λ rest. rest.now) result (skip_to_break (skip_chunk major) (length bytes.now) bytes.now) }
{
    let mut rest = bytes;
    for _ in 0..bytes.len() {
        match split_break(rest)? {
            Some(after) => return Ok(after),
            None => rest = skip_chunk(major, rest)?,
        }
    }
    Err(Stop::More)
}

// Passes over a definite string of a major type.
#[tactic(auto, unfolding(crate::specs::Scan::skip_chunk))]
pub(crate) fn skip_chunk(major: u8, bytes: &[u8]) -> Result<&[u8], Stop>
    ensures { Gives (λ rest. rest.now) result (skip_chunk major bytes.now) }
{
    match bytes {
        [] => Err(Stop::More),
        [initial, rest @ ..] => {
            if *initial / 32 != major || *initial % 32 >= 28 {
                return Err(Stop::Bad);
            }
            let (head, rest) = split_argument(*initial, rest)?;
            skip_bytes(head.value, rest)
        }
    }
}

/// What stands behind a break at the front of the bytes. None where something else stands there.
#[inline(always)]
pub(crate) fn split_break(bytes: &[u8]) -> Result<Option<&[u8]>, Stop>
    ensures { IsBreak (λ rest. rest.now) bytes.now result }
{
    match bytes {
        [] => Err(Stop::More),
        [BREAK, rest @ ..] => Ok(Some(rest)),
        _ => Ok(None),
    }
}

// Arrays, maps and tags.
pub(crate) fn is_nested(initial: u8) -> bool
    ensures { result ≡ is_nested initial }
{
    matches!(initial / 32, ARRAY..=TAG)
}
