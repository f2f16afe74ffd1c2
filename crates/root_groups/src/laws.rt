ghost use Rattle.std.specs.Prelude.{◌≡◌, false, List, ◌∷◌, map};
ghost use Rattle.std.specs.List.{IsDistinct};
ghost use Rattle.net_base.specs.Address.{same_address};
ghost use Rattle.net_base.specs.declared.address.Addr.{Addr};
ghost use Rattle.net_base.specs.declared.event.Group.{Group};
ghost use Rattle.root_groups.specs.Cleaned.{cleaned, group_of, members_of, without_members};

/// A law: what cleaning comes to. No address is left twice, and the own one not at all; every other address is in
/// the first group that had it; and there are as many groups as before, with the same valencies. It is said of the
/// definition that the calls cite, so the body is empty.
pub fn each_address_stays_in_its_first_group()
    ensures distinct { (own : Addr) (groups : List Group) → IsDistinct same_address (own ∷ members_of (cleaned own groups)) }
    ensures first { (own addr : Addr) (groups : List Group) → same_address addr own ≡ false
        → group_of addr (cleaned own groups) ≡ group_of addr groups }
    ensures valencies { (own : Addr) (groups : List Group) → map without_members (cleaned own groups) ≡ map without_members groups }
{}
