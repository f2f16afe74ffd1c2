ghost use Rattle.std.specs.Prelude.{◌≡◌, ◌≢◌, true, IfOk, OnErr, None};
ghost use Rattle.std.specs.List.{join_with_byte, list_all};
ghost use Rattle.std.specs.String.{string_bytes};
ghost use Rattle.trace_text.specs.Bytes.{bytes_words};
ghost use Rattle.trace_text.specs.Events.{is_lower_digit, piece_of};

use crate::line_text::longer_text;
use crate::lower_hex::{are_lower_digits, decode_lower};
use net_base::{Octets, OutOfMemory};
use std::alloc::{AllocError, Global};

// One read of a socket has so many bytes at most, and each has two digits.
const DIGITS_MOST: usize = 131_072;

/// The bytes that a word spells in lower case, if it does: one read of a socket. Memory is asked for only where it does.
pub fn read_piece(alloc: Global, word: &[u8]) -> Result<Option<Octets>, OutOfMemory>
    ensures piece { IfOk result (λ piece. piece ≡ piece_of word.now) }
    ensures memory { OnErr result (piece_of word.now ≢ None) }
{
    if !are_lower_digits(word) {
        return Ok(None);
    }
    decode_piece(alloc, word)
}

/// The same of digits in lower case.
pub(crate) fn decode_piece(alloc: Global, word: &[u8]) -> Result<Option<Octets>, OutOfMemory>
    requires { list_all is_lower_digit word.now ≡ true }
    ensures piece { IfOk result (λ piece. piece ≡ piece_of word.now) }
    ensures memory { OnErr result (piece_of word.now ≢ None) }
{
    if word.len() < 2 || DIGITS_MOST < word.len() || word.len() % 2 == 1 {
        return Ok(None);
    }
    let mut bytes = vec![in alloc; 0; word.len() / 2]?;
    decode_lower(word, &mut bytes);
    Ok(Some(Octets::from_vec(bytes)))
}

/// Bytes in hexadecimal, behind a name and an id.
pub fn bytes_text(alloc: Global, name: &str, id: u64, bytes: &[u8]) -> Result<String, AllocError>
    ensures { IfOk result (λ text. string_bytes text ≡ join_with_byte 32 (bytes_words name.now id bytes.now)) }
{
    let digits = hex::encode(alloc, bytes)?;
    longer_text(alloc, digits.len(), format_args!("{name} {id} {digits}"))
}
