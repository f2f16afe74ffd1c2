ghost use Rattle.std.specs.Prelude.{◌≡◌, [], IfOk};
ghost use Rattle.std.specs.List.{IsDistinct};
ghost use Rattle.net_base.specs.Address.{same_address};
ghost use Rattle.root_groups.specs.Cleaned.{cleaned, members_of, group_of};

use crate::places::Places;
use clean_groups::clean;
use net_base::{Addr, GroupList, OutOfMemory};
use std::alloc::Global;
use std::marker::Model;

/// Local groups in file order, in which no address stands twice.
#[derive(Drop)]
pub struct Groups {
    list: GroupList,
    places: Places,
}

impl Model for Groups {
    ghost use Rattle.std.specs.Prelude.{List};
    ghost use Rattle.net_base.specs.declared.event.Group.{Group};
    ghost use Rattle.root_groups.specs.Placed.{IsPlaced};

    ghost Value = { List Group };

    ghost view = { λ g. g.list };

    ghost invariant = { λ g. IsPlaced g.list g.places };
}

impl Groups {
    /// No groups. Takes no memory.
    pub fn new(alloc: Global) -> Groups
        ensures { result ≡ [] }
    {
        Groups {
            list: GroupList::new(alloc),
            places: Places::new(alloc),
        }
    }

    /// The groups, in which an address keeps its first place only, within and across groups, and the own address is
    /// dropped.
    pub fn replace(alloc: Global, groups: &GroupList, own: Addr) -> Result<Groups, OutOfMemory>
        ensures { IfOk result (λ kept. kept ≡ cleaned own groups.now) }
    {
        let list = clean(alloc, groups, own)?;
        let places = Places::of(alloc, list.as_slice())?;
        Ok(Groups { list, places })
    }

    /// The place of the group that holds an address.
    pub fn group_of(&self, addr: Addr) -> Option<usize>
        ensures { result ≡ group_of addr self.now }
    {
        self.places.get(addr)
    }

    /// The groups in file order.
    pub fn list(&self) -> &GroupList
        ensures value { result.now ≡ self.now }
        ensures distinct { IsDistinct same_address (members_of self.now) }
    {
        &self.list
    }
}
