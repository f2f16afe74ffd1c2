ghost use Rattle.std.specs.Prelude.{◌≡◌, [], Some, IfOk, OnOk, if◌then◌else◌};
ghost use Rattle.net_base.specs.Address.{same_address};
ghost use Rattle.net_base.specs.declared.address.Addr.{Addr};
ghost use Rattle.root_groups.specs.Cleaned.{is_listed, group_of};
ghost use Rattle.root_groups.specs.Places.{place_of};

use net_base::{Addr, Group, OutOfMemory};
use std::alloc::Global;
use std::collections::BTreeMap;
use std::marker::Model;

// The place of the group of each local address.
#[derive(Drop)]
pub struct Places {
    entries: BTreeMap<Addr, usize>,
}

impl Model for Places {
    ghost use Rattle.std.specs.Prelude.{ℕ, List};
    ghost use Rattle.net_base.specs.declared.address.Addr.{Addr};

    ghost Value = { List (Addr × ℕ) };

    ghost view = { λ p. p.entries.entries };
}

impl Places {
    pub fn new(alloc: Global) -> Places
        ensures { result ≡ [] }
    {
        Places {
            entries: BTreeMap::new(alloc),
        }
    }

    // The first group of each member. The last group is noted first, so that an earlier one takes its place.
    pub fn of(alloc: Global, groups: &[Group]) -> Result<Places, OutOfMemory>
        ensures { IfOk result (λ places. (addr : Addr) → place_of addr places ≡ group_of addr groups.now) }
    {
        let mut places = Places::new(alloc);
        let mut place = groups.len();
        while place > 0 {
            place -= 1;
            places.note(groups[place].members.as_slice(), place)?;
        }
        Ok(places)
    }

    pub fn get(&self, addr: Addr) -> Option<usize>
        ensures { result ≡ place_of addr self.now }
    {
        self.entries.get(&addr).copied()
    }

    // Notes the group of some addresses, whatever was noted of them.
    fn note(&mut self, members: &[Addr], place: usize) -> Result<(), OutOfMemory>
        ensures { OnOk result ((addr : Addr) → place_of addr self.new ≡ (if is_listed addr members.now then Some place else place_of addr self.old)) }
    {
        for addr in members {
            self.put(*addr, place)?;
        }
        Ok(())
    }

    fn put(&mut self, addr: Addr, place: usize) -> Result<(), OutOfMemory>
        ensures { OnOk result ((other : Addr) → place_of other self.new ≡ (if same_address addr other then Some place else place_of other self.old)) }
    {
        self.entries.insert(addr, place)?;
        Ok(())
    }
}
