ghost use Rattle.std.specs.Prelude.{◌≡◌, ◌<◌, ◌↔◌, [], take, drop, length, IsTrue, IfOk};
ghost use Rattle.peer_book.specs.Row.{addresses_in};

use crate::row::Row;
use net_base::Addr;
use std::alloc::{AllocError, Global};
use std::marker::Model;

/// The addresses of the peers of a temperature, lent by the book. Contracts see the list of them.
#[derive(Drop)]
pub struct Listed<'a> {
    row: &'a Row,
}

impl<'a> Model for Listed<'a> {
    ghost use Rattle.std.specs.Prelude.{List};
    ghost use Rattle.net_base.specs.declared.address.Addr.{Addr};
    ghost use Rattle.peer_book.specs.Row.{addresses_in};

    ghost Value = { List Addr };

    ghost view = { λ l. addresses_in l.row.now };
}

impl<'a> Listed<'a> {
    pub(crate) fn of(row: &'a Row) -> Listed<'a>
        ensures { result ≡ addresses_in row.now }
    {
        Listed { row }
    }

    pub fn is_empty(&self) -> bool
        ensures { IsTrue result ↔ (self.now ≡ []) }
    {
        self.row.is_empty()
    }

    /// The addresses from a place on that stand together in memory, so that a walk takes many at a time. None where the
    /// list is shorter.
    pub fn run_from(&self, place: usize) -> &[Addr]
        ensures front { result.now ≡ take (length result.now) (drop place self.now) }
        ensures some { place < length self.now → 0 < length result.now }
    {
        self.row.run_from(place)
    }

    /// A copy.
    pub fn to_vec(&self, alloc: Global) -> Result<Vec<Addr>, AllocError>
        ensures { IfOk result (λ addrs. addrs.items ≡ self.now) }
    {
        self.row.to_vec(alloc)
    }
}
