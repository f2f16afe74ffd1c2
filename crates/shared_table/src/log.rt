ghost use Rattle.std.specs.Prelude.{◌≡◌, ◌<◌, [], ◌∷◌, ◌++◌, OnOk};

use net_base::OutOfMemory;
use std::alloc::Global;
use std::marker::Model;

/// Items one after another, of which each stays as it was put. Contracts see the list of them, and for how many more
/// there is room.
#[derive(Drop)]
pub struct Log<T> {
    items: Vec<T>,
}

impl<T> Model for Log<T> {
    ghost use Rattle.std.specs.Prelude.{◌-◌, vec_len, vec_capacity};
    ghost use Rattle.shared_table.specs.Logs.{Logged};

    ghost Value = { Logged T };

    ghost view = { λ l. record { items = l.items.items; room = vec_capacity l.items - vec_len l.items } };
}

impl<T> Log<T> {
    /// No items yet. Takes no memory.
    pub fn new(alloc: Global) -> Self
        ensures { result.items ≡ [] }
    {
        Log {
            items: Vec::new(alloc),
        }
    }

    pub fn as_slice(&self) -> &[T]
        ensures { result.now ≡ self.now.items }
    {
        &self.items
    }
}

impl<T: Drop> Log<T> {
    // Makes room for one more. A refusal leaves the items as they are.
    pub(crate) fn make_room(&mut self) -> Result<(), OutOfMemory>
        ensures items { self.new.items ≡ self.old.items }
        ensures room { OnOk result (0 < self.new.room) }
    {
        self.items.reserve(1)?;
        Ok(())
    }

    // Puts an item at the end, for which there is room.
    pub(crate) fn put(&mut self, item: T)
        requires { 0 < self.old.room }
        ensures { self.new.items ≡ self.old.items ++ item ∷ [] }
    {
        self.items.push_reserved(item);
    }
}
