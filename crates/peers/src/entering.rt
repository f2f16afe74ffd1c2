ghost use Rattle.std.specs.Prelude.{◌≡◌, None, IfOk, OnOk, OnErr};
ghost use Rattle.peer_book.specs.Book.{all_entered, newcomers};
ghost use Rattle.peers.specs.Changes.{all_ordinary};
ghost use Rattle.root_groups.specs.Cleaned.{members_of};

use net_base::{Addr, AddrList, OutOfMemory};
use peer_book::PeerBook;
use root_groups::Groups;
use std::alloc::Global;

// Addresses of a class come into the book while fewer than so many of that class are known. Gives those that are new there.
// What was kept for askers is dropped: it may be another now.
pub fn enter(
    book: &mut PeerBook,
    tellable: &mut Option<AddrList>,
    big: bool,
    addrs: &[Addr],
    most: u64,
) -> Result<AddrList, OutOfMemory>
    ensures come { OnOk result (book.new ≡ all_entered most big addrs.now book.old) }
    ensures new { IfOk result (λ new. new ≡ newcomers most big addrs.now book.old) }
    ensures unchanged { OnErr result (book.new ≡ book.old) }
    ensures dropped { tellable.new ≡ None }
{
    *tellable = None;
    book.add_all(big, addrs, most)
}

// Big ledger peers with some addresses become ordinary ones.
pub fn make_ordinary(book: &mut PeerBook, addrs: &[Addr])
    ensures { book.new ≡ all_ordinary addrs.now book.old }
{
    for addr in addrs {
        if book.get(*addr).is_some() {
            book.make_ordinary(*addr);
        }
    }
}

// All members, group after group.
pub fn members_of(alloc: Global, groups: &Groups) -> Result<AddrList, OutOfMemory>
    ensures { IfOk result (λ addrs. addrs ≡ members_of groups.now) }
{
    let mut members = Vec::new(alloc);
    for group in groups.list().as_slice() {
        members.extend_from_slice(group.members.as_slice())?;
    }
    Ok(AddrList::from_vec(members))
}
