ghost use Rattle.std.specs.Prelude.{◌≡◌};
ghost use Rattle.cbor_items.specs.declared.scan.Scan.{Scan};
ghost use Rattle.cbor_items.specs.Scan.{scan_of};
ghost use Rattle.cbor_items.specs.Answer.{IsAnswer};

use crate::item::{LEVEL_LIMIT, skip_item};
use crate::stop::Stop;

/// What stands at the front of some bytes.
#[derive(Clone, Copy, PartialEq, Eq)]
pub enum Scan {
    /// An item of so many bytes.
    Whole(usize),
    /// An item that goes on behind the bytes, or nothing.
    More,
    /// No item.
    Bad,
    /// More than 64 arrays, maps and tags inside each other.
    Deep,
}

/// Scans the first item of the bytes (RFC 8949, sections 3.1 and 3.2). The first byte that decides gives the answer,
/// whatever follows it.
pub fn first_item(bytes: &[u8]) -> Scan
    ensures scan { result ≡ scan_of bytes.now }
    // What the answer means, by the grammar of items.
    ensures means { IsAnswer bytes.now result }
    ensures only { (answer : Scan) → IsAnswer bytes.now answer → answer ≡ result }
{
    match skip_item(bytes, LEVEL_LIMIT) {
        Ok(rest) => Scan::Whole(bytes.len() - rest.len()),
        Err(Stop::More) => Scan::More,
        Err(Stop::Bad) => Scan::Bad,
        Err(Stop::Deep) => Scan::Deep,
    }
}
