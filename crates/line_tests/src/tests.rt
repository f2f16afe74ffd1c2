use net_base::{Octets, OutOfMemory};
use std::alloc::{AllocError, Global};
use std::process::Abort;

mod events;
mod pairs;
mod traces;

// What is said of a line holds.
fn expect(rt: &impl Abort, holds: bool, line: &str) {
    assert!(rt; holds, "at {line}");
}

// Whether this was printed.
fn is_text(printed: Result<Octets, OutOfMemory>, text: &str) -> bool {
    match printed {
        Ok(octets) => octets.as_slice() == text.as_bytes(),
        Err(OutOfMemory) => false,
    }
}

// A line of so many bytes that begins with a text and goes on with one byte.
fn long_line(alloc: Global, length: usize, front: &str, byte: u8) -> Result<Vec<u8>, AllocError> {
    let mut line = Vec::from_slice(alloc, front.as_bytes())?;
    line.resize(length, byte)?;
    Ok(line)
}
