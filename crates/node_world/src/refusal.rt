use net_base::OutOfMemory;

/// Why a world did not do what it was asked for.
#[derive(Clone, Copy, PartialEq, Eq)]
pub enum WorldRefusal {
    /// The world has a fault. A socket that fails is an event and no fault.
    Failed,
    OutOfMemory,
}

impl From<OutOfMemory> for WorldRefusal {
    ghost use Rattle.std.specs.Prelude.{◌≡◌};
    ghost use Rattle.node_world.specs.declared.refusal.WorldRefusal.TheVariants.{OutOfMemory as NoMemory};

    ghost from_gives = { λ _ refusal. refusal ≡ NoMemory };

    fn from(_: OutOfMemory) -> Self {
        WorldRefusal::OutOfMemory
    }
}
