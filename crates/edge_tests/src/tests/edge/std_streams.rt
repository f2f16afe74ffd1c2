ghost use Rattle.std.specs.Prelude.{◌≤◌, IfOk};

use io_edge::*;
use std::alloc::Allocator;
use std::cell::Cell;
use std::fmt::Display;
use std::io;
use std::io::{BufRead, ErrorKind, Input, Lines, Print, Read};
use std::test::Fail;

// What the call of this number on a stream answers: it is interrupted twice, moves one byte and then fails.
fn answer_to(call: u8, len: usize) -> io::Result<usize>
    ensures { IfOk result (λ n. n ≤ len) }
{
    match call {
        1 | 2 => Err(io::Error::from(ErrorKind::Interrupted)),
        3 => Ok(len.min(1)),
        _ => Err(io::Error::from(ErrorKind::BrokenPipe)),
    }
}

// A runtime whose standard input and output answer so.
#[derive(Drop)]
struct Halting {
    calls: Cell<u8>,
}

#[derive(Drop)]
struct HaltingReader {
    calls: u8,
}

impl Read for HaltingReader {
    fn read(&mut self, buf: &mut [u8]) -> io::Result<usize> {
        self.calls = self.calls.saturating_add(1);
        answer_to(self.calls, buf.len())
    }
}

impl BufRead for HaltingReader {
    fn fill_buf(&mut self) -> io::Result<&[u8]> {
        Ok(&[])
    }

    fn consume(&mut self, amount: usize) {
        let _ = amount;
    }
}

impl Input for Halting {
    type Reader = HaltingReader;

    fn read_line<A: Allocator + Clone>(&self, buf: &mut String<A>) -> io::Result<usize> {
        self.reader().read_line(buf)
    }

    fn lines<A: Allocator>(&self, alloc: A) -> Lines<HaltingReader, A> {
        self.reader().lines(alloc)
    }

    fn reader(&self) -> HaltingReader {
        HaltingReader {
            calls: self.calls.get(),
        }
    }
}

impl Print for Halting {
    fn print<D: Display + Drop>(&self, value: D) -> io::Result<()> {
        drop(value);
        Ok(())
    }

    fn println<D: Display + Drop>(&self, value: D) -> io::Result<()> {
        self.print(value)
    }

    fn write_all(&self, bytes: &[u8]) -> io::Result<()> {
        self.write_some(bytes)?;
        Ok(())
    }

    fn write_some(&self, bytes: &[u8]) -> io::Result<usize> {
        let call = self.calls.get().saturating_add(1);
        self.calls.set(call);
        answer_to(call, bytes.len())
    }
}

#[test]
fn an_interrupted_read_is_begun_again(rt: HostRuntime) {
    let mut input = StdSource::new(&Halting {
        calls: Cell::new(0),
    });
    let mut buf = [0u8; 8];
    assert!(rt; input.fill(&mut buf) == Ok(1));
    assert!(rt; input.fill(&mut buf) == Err(Failed));
}

#[test]
fn an_interrupted_write_is_begun_again(rt: HostRuntime) {
    let mut out = StdSink::out(Halting {
        calls: Cell::new(0),
    });
    assert!(rt; out.put(b"ab") == Ok(1));
    assert!(rt; out.put(b"b") == Err(Failed));
}

#[test]
fn the_standard_streams_move_bytes(rt: HostRuntime) -> Result<(), Fail> {
    // A test's standard input is empty.
    let mut buf = [0u8; 8];
    assert!(rt; StdSource::new(&rt).fill(&mut buf) == Ok(0));
    assert!(rt; put_all(&mut StdSink::out(rt), b"to standard output\n") == Ok(()));
    assert!(rt; put_all(&mut StdSink::err(rt.stderr()), b"to standard error\n") == Ok(()));
    Ok(())
}
