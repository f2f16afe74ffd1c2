//! Laws on messages, whatever function reads or writes them. The functions do nothing.

ghost use Rattle.hs_message.specs.Law.{SpellOne, AreReadOff, AreReadAgain, ClientsSpellOne, ClientsAreReadOff, ClientsAreReadAgain};

/// Bytes spell at most one message.
pub fn bytes_spell_one_message()
    ensures { SpellOne }
{}

/// The message that bytes spell is the one that is read off them.
pub fn messages_are_read_off()
    ensures { AreReadOff }
{}

/// What is written spells the message, and is the first item of a stream that begins with it.
pub fn messages_are_read_again()
    ensures { AreReadAgain }
{}

/// Between a node and a local client too, bytes spell at most one message.
pub fn bytes_spell_one_client_message()
    ensures { ClientsSpellOne }
{}

/// Between a node and a local client too, the message that bytes spell is the one that is read off them.
pub fn client_messages_are_read_off()
    ensures { ClientsAreReadOff }
{}

/// Between a node and a local client too, what is written spells the message, and is the first item of a stream that
/// begins with it.
pub fn client_messages_are_read_again()
    ensures { ClientsAreReadAgain }
{}
