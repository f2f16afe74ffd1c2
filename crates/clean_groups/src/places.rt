ghost use Rattle.std.specs.Prelude.{◌≡◌, [], ◌∷◌, ◌++◌, None, OnOk, OnErr, is_some};
ghost use Rattle.clean_groups.specs.Places.{place_of};

use crate::hashed::Hashed;
use indexmap::IndexMap;
use net_base::{Addr, OutOfMemory};
use std::alloc::Global;
use std::marker::Model;

// Each local address beside the place of its group, in file order.
#[derive(Drop)]
pub struct Places {
    entries: IndexMap<Hashed, usize>,
}

impl Model for Places {
    ghost use Rattle.std.specs.Prelude.{ℕ, List, map, ◌≡◌};
    ghost use Rattle.net_base.specs.declared.address.Addr.{Addr};

    ghost Value = { List (Addr × ℕ) };

    ghost view = { λ p. map (λ e. (e.0.0, e.1)) p.entries.entries };
}

impl Places {
    pub fn new(alloc: Global) -> Places
        ensures { result ≡ [] }
    {
        Places {
            entries: IndexMap::new(alloc),
        }
    }

    pub fn has(&self, addr: Addr) -> bool
        ensures { result ≡ is_some (place_of addr self.now) }
    {
        self.entries.contains_key(&Hashed(addr))
    }

    // The address isn't there yet.
    pub fn put(&mut self, addr: Addr, place: usize) -> Result<(), OutOfMemory>
        requires { place_of addr self.old ≡ None }
        ensures ok { OnOk result (self.new ≡ self.old ++ (addr, place) ∷ []) }
        ensures err { OnErr result (self.new ≡ self.old) }
    {
        self.entries.insert(Hashed(addr), place)?;
        Ok(())
    }
}
