ghost use Rattle.std.specs.Prelude.{◌≡◌};
ghost use Rattle.cbor_items.specs.declared.halt.Halt.TheVariants.{Stopped, NoMemory};

use crate::stop::Stop;
use net_base::OutOfMemory;

/// Why a scan does not go on.
#[derive(Clone, Copy)]
pub(crate) enum Halt {
    Stopped(Stop),
    NoMemory,
}

impl From<Stop> for Halt {
    ghost from_gives = { λ stop e. e ≡ Stopped stop };

    fn from(stop: Stop) -> Self {
        Halt::Stopped(stop)
    }
}

impl From<OutOfMemory> for Halt {
    ghost from_gives = { λ _ e. e ≡ NoMemory };

    fn from(_: OutOfMemory) -> Self {
        Halt::NoMemory
    }
}
