ghost use Rattle.std.specs.Prelude.{◌≡◌};
ghost use Rattle.hs_message.specs.declared.refusal.ReadRefusal.TheVariants.{NotAMessage, OutOfMemory};

use cbor_items::Absent;

/// Why no message was read.
#[derive(Clone, Copy, PartialEq, Eq)]
pub enum ReadRefusal {
    /// The bytes spell none.
    NotAMessage,
    /// A growth of memory was refused.
    OutOfMemory,
}

impl From<net_base::OutOfMemory> for ReadRefusal {
    ghost from_gives = { λ _ e. e ≡ OutOfMemory };

    fn from(_: net_base::OutOfMemory) -> Self {
        ReadRefusal::OutOfMemory
    }
}

impl From<Absent> for ReadRefusal {
    ghost from_gives = { λ _ e. e ≡ NotAMessage };

    fn from(_: Absent) -> Self {
        ReadRefusal::NotAMessage
    }
}
