ghost use Rattle.std.specs.Prelude.{◌≡◌, ◌≢◌, ◌<◌, ◌≤◌, ℕ, None, length, take, is_ok, if◌then◌else◌, IfOk, IfErr, OnErr};
ghost use Rattle.std.specs.Io.KnownBytes.{Appends, Keeps};
ghost use Rattle.std.specs.IoError.{error_kind};
ghost use Rattle.io_edge.specs.Causes.{HasCause};
ghost use Rattle.net_base.specs.Calls.{one_more};

use crate::{Failed, Sink};
use std::io;
use std::io::{ErrorKind, Print, Stderr, Write};
use std::marker::Model;

/// The standard output or the standard error of a runtime. What it took is not told. Contracts see the count of its
/// faults.
#[derive(Drop)]
pub struct StdSink<P: Print> {
    stream: P,
    faults: u64,
}

impl<P: Print> Model for StdSink<P> {
    ghost use Rattle.std.specs.Prelude.{ℕ};

    ghost Value = { ℕ };

    ghost view = { λ s. s.faults };
}

impl<P: Print> StdSink<P> {
    /// The standard output. No call failed yet.
    pub fn out(rt: P) -> StdSink<P>
        ensures { result ≡ 0 }
    {
        StdSink {
            stream: rt,
            faults: 0,
        }
    }
}

impl StdSink<Stderr> {
    /// The standard error. No call failed yet.
    pub fn err(stream: Stderr) -> StdSink<Stderr>
        ensures { result ≡ 0 }
    {
        StdSink { stream, faults: 0 }
    }
}

impl<P: Print> Sink for StdSink<P> {
    ghost taken = { λ _. None };

    ghost faults = { λ count. count };

    fn put(&mut self, piece: &[u8]) -> Result<usize, Failed>
        ensures bound { IfOk result (λ n. n ≤ length piece.now) }
        ensures progress { IfOk result (λ n. 0 < length piece.now → 0 < n) }
        ensures cause { HasCause self.old self.new result }
        ensures count { self.new ≡ (if is_ok result then self.old else one_more self.old) }
    {
        match write_once(&mut io::writer(&self.stream), piece) {
            Ok(count) if count > 0 || piece.is_empty() => Ok(count),
            _ => {
                self.faults = self.faults.saturating_add(1);
                Err(Failed)
            }
        }
    }
}

// One write, begun again where a signal interrupts it.
fn write_once<W: Write>(writer: &mut W, piece: &[u8]) -> io::Result<usize>
    ensures bound { IfOk result (λ n. n ≤ length piece.now) }
    ensures bytes { IfOk result (λ n. Appends (W.contents writer.old) (W.contents writer.new) (take n piece.now)) }
    ensures untouched { OnErr result (Keeps (W.contents writer.old) (W.contents writer.new)) }
    ensures retried { IfErr result (λ error. error_kind error ≢ ErrorKind.Interrupted) }
{
    for _ in 0..u64::MAX {
        match writer.write(piece) {
            Err(error) if error.kind() == ErrorKind::Interrupted => {}
            answer => return answer,
        }
    }
    Err(io::Error::from(ErrorKind::Other))
}
