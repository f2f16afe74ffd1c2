//! The readings of a shelf, one after another. Only contracts see them: they take no memory, and the calls do nothing.
ghost use Rattle.std.specs.Prelude.{◌≡◌, List, [], ◌∷◌, ◌++◌};
ghost use Rattle.std.specs.Borrow.{ftrue};
ghost use Rattle.io_edge.specs.declared.reading.Reading.{Reading};

use crate::reading::LentReading;
use std::marker::Model;

#[derive(Drop)]
pub(crate) struct ReadingLog {
    pub(crate) ghost items: { List Reading },
}

impl Model for ReadingLog {
    ghost also_owns = { λ _. ftrue };
}

impl ReadingLog {
    ghost use Rattle.io_edge.specs.Files.{reading_lent};

    pub(crate) fn new() -> ReadingLog
        ensures { result.items ≡ [] }
    {
        ReadingLog {}
    }

    // With one more.
    pub(crate) fn with(&self, _reading: &LentReading<'_>) -> ReadingLog
        ensures { result.items ≡ self.now.items ++ reading_lent _reading.now ∷ [] }
    {
        ReadingLog {}
    }
}
