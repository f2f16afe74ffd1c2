ghost use Rattle.std.specs.Prelude.{◌≡◌};
ghost use Rattle.cbor_items.specs.Front.{Finds};
ghost use Rattle.hs_message.specs.Codes.{message_tag, message_code_of};

use crate::tag::Tag;
use cbor_items::Absent;

/// The kinds of messages.
#[derive(Clone, Copy)]
pub(crate) enum MessageCode {
    Propose,
    Accept,
    Refuse,
    QueryReply,
}

impl MessageCode {
    /// How a message of the kind begins.
    pub(crate) fn tag(self) -> Tag
        ensures { result ≡ message_tag self }
    {
        let (elements, number) = match self {
            MessageCode::Propose => (2, 0),
            MessageCode::Accept => (3, 1),
            MessageCode::Refuse => (2, 2),
            MessageCode::QueryReply => (2, 3),
        };
        Tag { elements, number }
    }

    /// The kind of message that begins so.
    pub(crate) fn of(tag: Tag) -> Result<MessageCode, Absent>
        ensures { Finds (λ code. code) result (message_code_of tag) }
    {
        if tag == MessageCode::Propose.tag() {
            Ok(MessageCode::Propose)
        } else if tag == MessageCode::Accept.tag() {
            Ok(MessageCode::Accept)
        } else if tag == MessageCode::Refuse.tag() {
            Ok(MessageCode::Refuse)
        } else if tag == MessageCode::QueryReply.tag() {
            Ok(MessageCode::QueryReply)
        } else {
            Err(Absent)
        }
    }
}
