ghost use Rattle.std.specs.Prelude.{◌≡◌, is_some};
ghost use Rattle.root_groups.specs.Cleaned.{group_of};

use net_base::Addr;
use root_groups::{Groups, Roots};

// Which addresses a rule is about.
#[derive(Clone, Copy)]
pub enum Whom<'a> {
    Everybody,
    NotLocal(&'a Groups),
    // neither local nor public
    Droppable(&'a Groups, &'a Roots),
}

impl Whom<'_> {
    ghost use Rattle.govern_rules.specs.Whom.{is_meant};

    #[inline(always)]
    pub fn is_meant(&self, addr: &Addr) -> bool
        ensures { result ≡ is_meant self.now addr.now }
    {
        match self {
            Whom::Everybody => true,
            Whom::NotLocal(groups) => !is_local(groups, addr),
            Whom::Droppable(groups, roots) => !is_local(groups, addr) && !roots.is_public(*addr),
        }
    }
}

// Whether a group holds an address. Where there are no groups, none is looked for.
fn is_local(groups: &Groups, addr: &Addr) -> bool
    ensures { result ≡ is_some (group_of addr.now groups.now) }
{
    !groups.list().as_slice().is_empty() && has_group(groups, addr)
}

#[inline(never)]
fn has_group(groups: &Groups, addr: &Addr) -> bool
    ensures { result ≡ is_some (group_of addr.now groups.now) }
{
    groups.group_of(*addr).is_some()
}
