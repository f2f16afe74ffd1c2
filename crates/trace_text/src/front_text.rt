//! Text that is made from its end, where its memory stands.

ghost use Rattle.std.specs.Prelude.{◌≡◌, ◌≤◌, ◌<◌, ◌+◌, [], ◌∷◌, ◌++◌, length, decimal};

use std::marker::Model;

// An IPv4 address with its port has at most 21 bytes.
const MOST: usize = 24;

/// At most 24 bytes, each put in front of those that stand. Contracts see them.
#[derive(Drop)]
pub(crate) struct FrontText {
    bytes: [u8; MOST],
    // Where the first one stands.
    start: usize,
}

impl Model for FrontText {
    ghost use Rattle.std.specs.Prelude.{◌≤◌, ℕ, List, drop};

    ghost Value = { List ℕ };

    ghost view = { λ t. drop t.start t.bytes };

    ghost invariant = { λ t. t.start ≤ 24 };
}

impl FrontText {
    /// No byte.
    #[inline(always)]
    pub(crate) fn new() -> FrontText
        ensures { result ≡ [] }
    {
        FrontText {
            bytes: [0; MOST],
            start: MOST,
        }
    }

    /// The bytes.
    #[inline(always)]
    pub(crate) fn as_bytes(&self) -> &[u8]
        ensures { result.now ≡ self.now }
    {
        &self.bytes[self.start..]
    }

    /// Puts a byte in front.
    #[inline(always)]
    pub(crate) fn put(&mut self, byte: u8)
        requires { length self.old < 24 }
        ensures { self.new ≡ byte ∷ self.old }
    {
        self.start -= 1;
        self.bytes[self.start] = byte;
    }

    /// Puts a number in front, in decimal.
    #[inline(always)]
    pub(crate) fn put_number(&mut self, number: u32)
        requires { length (decimal number) + length self.old ≤ 24 }
        ensures { self.new ≡ decimal number ++ self.old }
    {
        let mut start = self.start - 1;
        let mut rest = number;
        while rest >= 10 {
            self.bytes[start] = b'0' + (rest % 10) as u8;
            rest /= 10;
            start -= 1;
        }
        self.bytes[start] = b'0' + rest as u8;
        self.start = start;
    }

    /// Puts an octet in front, in decimal, and behind it what ends it.
    #[inline(always)]
    pub(crate) fn put_octet(&mut self, octet: u32, end: u8)
        requires octet { octet < 256 }
        requires room { length self.old ≤ 20 }
        ensures text { self.new ≡ decimal octet ++ end ∷ self.old }
        ensures length { length self.new ≤ length self.old + 4 }
    {
        self.put(end);
        self.put_number(octet);
    }
}
