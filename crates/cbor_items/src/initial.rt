//! Initial bytes of items: RFC 8949, section 3.

/// The major types that are told apart.
pub const NUMBER: u8 = 0;

pub(crate) const BYTES: u8 = 2;

pub const TEXT: u8 = 3;

pub const ARRAY: u8 = 4;

pub const MAP: u8 = 5;

pub(crate) const TAG: u8 = 6;

/// The initial bytes of an indefinite string of bytes, and of one of text.
pub(crate) const BYTE_CHUNKS: u8 = 0x5f;

pub(crate) const TEXT_CHUNKS: u8 = 0x7f;

/// The simple values.
pub const FALSE: u8 = 0xf4;

pub const TRUE: u8 = 0xf5;

/// A simple value in the next byte.
pub(crate) const NEXT_BYTE: u8 = 0xf8;

/// What ends an item of indefinite length.
pub const BREAK: u8 = 0xff;
