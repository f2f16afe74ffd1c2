use net_base::OutOfMemory;

/// Why a file was not read.
#[derive(Clone, Copy, PartialEq, Eq)]
pub enum ShelfRefusal {
    /// The file is not there, or it can't be read.
    Failed,
    /// The file has more bytes than were asked for, and how many.
    TooLarge(usize),
    OutOfMemory,
}

impl From<OutOfMemory> for ShelfRefusal {
    ghost use Rattle.std.specs.Prelude.{◌≡◌};
    ghost use Rattle.io_edge.specs.declared.shelf_refusal.ShelfRefusal.TheVariants.{OutOfMemory as NoMemory};

    ghost from_gives = { λ _ refusal. refusal ≡ NoMemory };

    fn from(_: OutOfMemory) -> Self {
        ShelfRefusal::OutOfMemory
    }
}
