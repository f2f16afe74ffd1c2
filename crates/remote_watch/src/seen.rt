ghost use Rattle.std.specs.Prelude.{◌≡◌};

use crate::Reply;

/// What an item of the initiator's side is to a responder.
#[derive(Clone, Copy, PartialEq, Eq)]
pub struct Seen {
    /// The initiator is done with the protocol.
    pub done: bool,
    pub reply: Reply,
}

impl Seen {
    ghost use Rattle.remote_watch.specs.Watch.{goes_on, is_done};

    pub(crate) fn goes_on(reply: Reply) -> Seen
        ensures { result ≡ goes_on reply }
    {
        Seen { done: false, reply }
    }

    pub(crate) fn done() -> Seen
        ensures { result ≡ is_done }
    {
        Seen {
            done: true,
            reply: Reply::Nothing,
        }
    }
}
