ghost use Rattle.std.specs.Prelude.{◌≡◌, IfOk, IfSome};
ghost use Rattle.std.specs.String.{string_bytes};

use std::alloc::{AllocError, Global};
use std::fmt::Display;

// How many bytes most lines have at most.
const MOST_LINES: usize = 64;

/// The text of a line. Memory is asked for once, where the line is no longer than most.
pub fn line_text<D: Display + Drop>(alloc: Global, value: D) -> Result<String, AllocError>
    ensures { IfOk result (λ text. IfSome (D.output value) (λ bytes. string_bytes text ≡ bytes)) }
{
    text_within(alloc, MOST_LINES, value)
}

/// The text of a line that has some more bytes than most.
pub fn longer_text<D: Display + Drop>(
    alloc: Global,
    more: usize,
    value: D,
) -> Result<String, AllocError>
    ensures { IfOk result (λ text. IfSome (D.output value) (λ bytes. string_bytes text ≡ bytes)) }
{
    text_within(alloc, more.saturating_add(MOST_LINES), value)
}

fn text_within<D: Display + Drop>(
    alloc: Global,
    room: usize,
    value: D,
) -> Result<String, AllocError>
    ensures { IfOk result (λ text. IfSome (D.output value) (λ bytes. string_bytes text ≡ bytes)) }
{
    let mut text = String::with_capacity(alloc, room)?;
    text.write(value)?;
    Ok(text)
}
