ghost use Rattle.std.specs.Prelude.{◌≡◌, ◌++◌, ◌-◌, ◌≤◌, filter, length, take, IfOk, OnOk};
ghost use Rattle.peer_book.specs.Book.{addresses_of};
ghost use Rattle.share_rounds.specs.Rounds.{AreTellable, IsServedFor, is_advertised, most_tellable, served_to, told_among};

use crate::keep::keep_where;
use net_base::{Addr, AddrList, OutOfMemory, Peer};
use peer_book::PeerBook;
use root_groups::{Groups, Roots};
use std::alloc::Global;

// How many peers are told at a time: this project's own.
const MOST_TOLD: u64 = 10;

// How many are kept for every asker: one of them may be the one that asks.
const MOST_TELLABLE: usize = 11;

/// The peers that are told to one that asks for so many, in address order: at most ten, and itself not among them. A local
/// peer is told where its group is advertised, any other one where it is no public root. It looks through the book: where
/// many ask, `tellable` and `served_among` do that once for all of them.
pub fn served(
    alloc: Global,
    book: &PeerBook,
    groups: &Groups,
    roots: &Roots,
    asker: Addr,
    n: u64,
) -> Result<AddrList, OutOfMemory>
    ensures { IfOk result (λ told. told ≡ served_to asker n book.now groups.now roots.now.publics) }
{
    let tellable = tellable(alloc, book, groups, roots)?;
    served_among(alloc, tellable.as_slice(), asker, n)
}

/// The first addresses of the book that may be told to anyone, in address order: at most eleven, so that ten are left
/// whoever asks.
pub fn tellable(
    alloc: Global,
    book: &PeerBook,
    groups: &Groups,
    roots: &Roots,
) -> Result<AddrList, OutOfMemory>
    ensures { IfOk result (λ addrs. AreTellable addrs book.now groups.now roots.now.publics) }
{
    let mut kept = AddrList::new(alloc);
    let mut place = 0;
    while place < book.len() && kept.as_slice().len() < MOST_TELLABLE {
        let run = book.run_from(place);
        keep_tellable(&mut kept, run, groups, roots)?;
        place += run.len();
    }
    Ok(kept)
}

// Keeps those of some peers that may be told to anyone, as long as fewer are kept than there may be.
fn keep_tellable(
    kept: &mut AddrList,
    peers: &[Peer],
    groups: &Groups,
    roots: &Roots,
) -> Result<(), OutOfMemory>
    requires { length kept.old ≤ most_tellable }
    ensures { OnOk result (kept.new ≡ kept.old ++ take (most_tellable - length kept.old) (filter (is_advertised groups.now roots.now.publics) (addresses_of peers.now))) }
{
    for peer in peers {
        if kept.as_slice().len() >= MOST_TELLABLE {
            return Ok(());
        }
        let may = is_advertised(groups, roots, peer.addr);
        keep_where(kept, may, peer.addr)?;
    }
    Ok(())
}

/// The peers that are told to one that asks for so many, out of the `tellable` ones of the book: at most ten, and itself
/// not among them.
pub fn served_among(
    alloc: Global,
    tellable: &[Addr],
    asker: Addr,
    n: u64,
) -> Result<AddrList, OutOfMemory>
    ensures told { IfOk result (λ told. told ≡ told_among asker n tellable.now) }
    ensures served { IfOk result (IsServedFor asker n tellable.now) }
{
    let most = n.min(MOST_TOLD) as usize;
    let mut told = AddrList::new(alloc);
    for addr in tellable {
        if told.as_slice().len() >= most {
            return Ok(told);
        }
        let may = !addr.is_same(&asker);
        keep_where(&mut told, may, *addr)?;
    }
    Ok(told)
}

fn is_advertised(groups: &Groups, roots: &Roots, addr: Addr) -> bool
    ensures { result ≡ is_advertised groups.now roots.now.publics addr }
{
    match groups.group_of(addr) {
        Some(place) => groups.list().as_slice()[place].advertise,
        None => !roots.is_public(addr),
    }
}
