ghost use Rattle.trace_text.specs.declared.line.LineRefusal.TheVariants.{BadWord};
ghost use Rattle.trace_text.specs.Reading.{next_number, next_read};
ghost use Rattle.trace_text.specs.Views.{Gives};
ghost use Rattle.pair_net.specs.Lines.{end_named};

use crate::End;
use trace_text::{LineRefusal, Words, read_magic};

/// A number of 32 bits.
pub(crate) fn next_magic(words: &mut Words) -> Result<u32, LineRefusal>
    ensures { Gives (λ n. n) result words.new (next_number 0 4294967295 words.old) }
{
    let place = words.place();
    let word = words.word()?;
    read_magic(word).ok_or(LineRefusal::BadNumber(place))
}

/// One of the two ends.
pub(crate) fn next_end(words: &mut Words) -> Result<End, LineRefusal>
    ensures { Gives (λ end. end) result words.new (next_read end_named BadWord words.old) }
{
    let place = words.place();
    match words.word()? {
        b"left" => Ok(End::Left),
        b"right" => Ok(End::Right),
        _ => Err(LineRefusal::BadWord(place)),
    }
}
