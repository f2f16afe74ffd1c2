ghost use Rattle.std.specs.Prelude.{◌≡◌};
ghost use Rattle.govern_rules.specs.Marks.{has_mark};

use crate::Link;

// What is looked for among the links of an address.
#[derive(Clone, Copy)]
pub enum Mark {
    Entry,
    Pending,
    Acquirable,
    Owes2,
    Owes10,
    OwesReply,
    CanShare,
}

pub fn has_mark(mark: Mark, link: &Link) -> bool
    ensures { result ≡ has_mark mark link.now }
{
    match mark {
        Mark::Entry => true,
        Mark::Pending => link.pending,
        Mark::Acquirable => link.acquirable,
        Mark::Owes2 => link.owes2,
        Mark::Owes10 => link.owes10,
        Mark::OwesReply => link.owes2 || link.owes8 || link.owes10,
        Mark::CanShare => link.local && link.sharing && !link.owes10,
    }
}
