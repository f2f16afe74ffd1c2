ghost use Rattle.std.specs.Prelude.{◌≡◌, ◌≤◌, ◌∷◌, ◌++◌, [], OnOk, OnErr};
ghost use Rattle.std.specs.List.{insert};

use net_base::OutOfMemory;

// How many items a chunk has at most.
pub const LIMIT: usize = 32;
// How many items a full chunk keeps where it is cut in two.
pub const HALF: usize = 16;
// How many items a chunk has at most whose neighbours are looked at for joining, after a removal.
pub const FEW: usize = 8;
// How many items two neighbours have at most that are joined.
pub const JOINED: usize = 24;

// Items that stand one after another.
#[derive(Drop)]
pub struct Chunk<T> {
    pub items: Vec<T>,
}

impl<T: Drop> Chunk<T> {
    ghost use Rattle.std.specs.Prelude.{length};
    ghost use Rattle.chunked_list.specs.Chunks.{items_in};

    pub fn insert(&mut self, at: usize, item: T) -> Result<(), OutOfMemory>
        requires { at ≤ length (items_in self.old) }
        ensures ok { OnOk result (items_in self.new ≡ insert (items_in self.old) at item) }
        ensures err { OnErr result (items_in self.new ≡ items_in self.old) }
    {
        self.items.insert(at, item)?;
        Ok(())
    }

    pub fn push(&mut self, item: T) -> Result<(), OutOfMemory>
        ensures ok { OnOk result (items_in self.new ≡ items_in self.old ++ item ∷ []) }
        ensures err { OnErr result (items_in self.new ≡ items_in self.old) }
    {
        self.items.push(item)?;
        Ok(())
    }
}
