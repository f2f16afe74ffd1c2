//! Laws on messages, whatever function reads or writes them. The functions do nothing.

ghost use Rattle.warm_messages.specs.Law.{ReadingIsSpelling, ItemsNeedNoScan, SpellAtMostOne, WritingIsSpelling, MessagesAreItems};

/// Reading finds a message exactly where the bytes spell it.
pub fn reading_is_spelling()
    ensures { ReadingIsSpelling }
{}

/// The first number of bytes that are one item is found without a scan of the whole.
pub fn items_need_no_scan()
    ensures { ItemsNeedNoScan }
{}

/// Bytes spell at most one message of each protocol.
pub fn bytes_spell_at_most_one_message()
    ensures { SpellAtMostOne }
{}

/// What is written spells the message, so it is read again.
pub fn writing_is_spelling()
    ensures { WritingIsSpelling }
{}

/// What spells a message is one item, and the first one of a stream that begins with it.
pub fn messages_are_items()
    ensures { MessagesAreItems }
{}
