ghost use Rattle.std.specs.Prelude.{◌≡◌, ◌++◌, ◌∷◌, [], IfOk, OnOk, if◌then◌else◌};
ghost use Rattle.clean_groups.specs.Cleaned.{is_listed, first_places, cleaned};
ghost use Rattle.clean_groups.specs.Places.{addresses_in, placed_at};

use crate::places::Places;
use net_base::{Addr, AddrList, Group, GroupList, OutOfMemory};
use std::alloc::Global;

/// The groups, in which an address keeps its first place only, within and across groups, and the own address is
/// dropped.
pub fn clean(alloc: Global, groups: &GroupList, own: Addr) -> Result<GroupList, OutOfMemory>
    ensures { IfOk result (λ kept. kept ≡ cleaned own groups.now) }
{
    let mut list = GroupList::new(alloc);
    let mut places = Places::new(alloc);
    for group in groups.as_slice() {
        let place = list.as_slice().len();
        let members = keep_first(alloc, &mut places, group.members.as_slice(), own, place)?;
        list.push(Group {
            hot: group.hot,
            warm: group.warm,
            advertise: group.advertise,
            members,
        })?;
    }
    Ok(list)
}

// The members at their first places, which are noted.
fn keep_first(
    alloc: Global,
    places: &mut Places,
    members: &[Addr],
    own: Addr,
    place: usize,
) -> Result<AddrList, OutOfMemory>
    ensures kept { IfOk result (λ kept. kept ≡ first_places (own ∷ addresses_in places.old) members.now) }
    ensures placed { IfOk result (λ kept. places.new ≡ places.old ++ placed_at place kept) }
{
    let mut kept = AddrList::new(alloc);
    for addr in members {
        keep(&mut kept, places, own, *addr, place)?;
    }
    Ok(kept)
}

// Keeps an address and notes its place, where it is neither the own one nor noted yet.
fn keep(
    kept: &mut AddrList,
    places: &mut Places,
    own: Addr,
    addr: Addr,
    place: usize,
) -> Result<(), OutOfMemory>
    ensures kept { OnOk result (kept.new ≡ (if is_listed addr (own ∷ addresses_in places.old) then kept.old else kept.old ++ addr ∷ [])) }
    ensures placed { OnOk result (places.new ≡ (if is_listed addr (own ∷ addresses_in places.old) then places.old else places.old ++ (addr, place) ∷ [])) }
{
    if is_taken(places, own, addr) {
        return Ok(());
    }
    places.put(addr, place)?;
    kept.push(addr)?;
    Ok(())
}

// An address is the own one or noted already.
fn is_taken(places: &Places, own: Addr, addr: Addr) -> bool
    ensures { result ≡ is_listed addr (own ∷ addresses_in places.now) }
{
    addr.is_same(&own) || places.has(addr)
}
