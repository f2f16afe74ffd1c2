use net_base::{Octets, OutOfMemory};
use std::alloc::{AllocError, Global};
use std::process::Abort;

mod clients;
mod decisions;
mod items;
mod messages;
mod receiving;
mod segments;
mod warm;
mod watch;

// What is said of these bytes holds.
fn expect(rt: &impl Abort, holds: bool, bytes: &[u8]) {
    assert!(rt; holds, "at {bytes:?}");
}

// Whether this was written.
fn is_written(written: Result<Octets, OutOfMemory>, bytes: &[u8]) -> bool {
    match written {
        Ok(octets) => octets.as_slice() == bytes,
        Err(OutOfMemory) => false,
    }
}

// Some bytes, one byte so many times behind them, and some bytes behind these.
fn filled(
    alloc: Global,
    front: &[u8],
    (count, byte): (usize, u8),
    behind: &[u8],
) -> Result<Vec<u8>, AllocError> {
    let mut bytes = Vec::from_slice(alloc, front)?;
    bytes.extend_from_slice(&vec![in alloc; byte; count]?)?;
    bytes.extend_from_slice(behind)?;
    Ok(bytes)
}
