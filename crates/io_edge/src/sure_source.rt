ghost use Rattle.std.specs.Prelude.{◌≡◌, ◌<◌, ◌≤◌, Some, Ok, length, take, min, drop, IfOk};
ghost use Rattle.std.specs.Io.KnownBytes.{IsAtEnd};
ghost use Rattle.io_edge.specs.Causes.{HasCause};
ghost use Rattle.io_edge.specs.Told.{Gives};
ghost use Rattle.io_edge.specs.Memory.{piece_size, after_piece};

use crate::{Failed, Source};
use net_base::Octets;
use std::marker::Model;

/// Bytes in memory that are given at most a piece at a time, and no call fails. Contracts see the bytes left and
/// the size of a piece.
#[derive(Drop)]
pub struct SureSource {
    bytes: Octets,
    given: usize,
    piece: usize,
}

impl Model for SureSource {
    ghost use Rattle.std.specs.Prelude.{◌≤◌, length, drop};
    ghost use Rattle.io_edge.specs.Memory.{Pieces};

    ghost Value = { Pieces };

    ghost view = { λ s. record { left = drop s.given s.bytes; piece = s.piece } };

    ghost invariant = { λ s. (s.given ≤ length s.bytes) × (1 ≤ s.piece) };
}

impl SureSource {
    /// All the bytes are left.
    pub fn new(bytes: Octets, piece: usize) -> SureSource
        requires { 1 ≤ piece }
        ensures { result ≡ record { left = bytes; piece = piece } }
    {
        SureSource {
            bytes,
            given: 0,
            piece,
        }
    }
}

impl Source for SureSource {
    ghost left = { λ s. Some s.left };

    ghost faults = { λ _. 0 };

    fn fill(&mut self, buf: &mut [u8]) -> Result<usize, Failed>
        ensures bytes { IfOk result (λ n. Gives (Some self.old.left) (Some self.new.left) (take n buf.new)) }
        ensures end { IfOk result (λ n. n ≡ 0 → 0 < length buf.new → IsAtEnd (Some self.new.left)) }
        ensures cause { HasCause 0 0 result }
        ensures size { result ≡ Ok (piece_size self.old (length buf.old)) }
        ensures after { self.new ≡ after_piece self.old (length buf.old) }
    {
        let left = &self.bytes.as_slice()[self.given..];
        let count = left.len().min(self.piece).min(buf.len());
        buf[..count].copy_from_slice(&left[..count]);
        self.given += count;
        Ok(count)
    }
}
