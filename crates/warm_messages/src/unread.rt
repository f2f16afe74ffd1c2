ghost use Rattle.std.specs.Prelude.{◌≡◌};

use cbor_items::Absent;

/// Why no message was read.
#[derive(Clone, Copy, PartialEq, Eq)]
pub(crate) enum Unread {
    /// The bytes are none.
    NoMessage,
    OutOfMemory,
}

impl From<net_base::OutOfMemory> for Unread {
    ghost use Rattle.warm_messages.specs.declared.unread.Unread.TheVariants.{OutOfMemory};

    ghost from_gives = { λ _ unread. unread ≡ OutOfMemory };

    fn from(_: net_base::OutOfMemory) -> Self {
        Unread::OutOfMemory
    }
}

impl From<Absent> for Unread {
    ghost use Rattle.warm_messages.specs.declared.unread.Unread.TheVariants.{NoMessage};

    ghost from_gives = { λ _ unread. unread ≡ NoMessage };

    fn from(_: Absent) -> Self {
        Unread::NoMessage
    }
}
