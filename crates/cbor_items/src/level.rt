ghost use Rattle.std.specs.Prelude.{◌≡◌};
ghost use Rattle.cbor_items.specs.Steps.{is_done};

/// What stands up to a break.
#[derive(Clone, Copy)]
pub(crate) enum Thing {
    Item,
    /// A key and its value.
    Entry,
    /// A definite string of bytes.
    ByteChunk,
    /// A definite string of text.
    TextChunk,
}

/// What is still to come inside an array, a map, a tag or an indefinite string.
#[derive(Clone, Copy)]
pub(crate) enum Level {
    /// So many items. An entry of a map is two.
    Items(u128),
    /// A value, and then entries up to a break.
    Value,
    /// Things up to a break.
    ToBreak(Thing),
}

impl Level {
    /// Nothing is to come any more.
    pub fn is_done(self) -> bool
        ensures { result ≡ is_done self }
    {
        matches!(self, Level::Items(0))
    }
}
