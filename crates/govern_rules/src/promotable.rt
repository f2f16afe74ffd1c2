ghost use Rattle.std.specs.Prelude.{◌≡◌, ◌++◌, ◌<◌, filter, IfOk, OnOk};
ghost use Rattle.std.specs.List.{IsDistinct};
ghost use Rattle.std.specs.List.Sorted.{IsPermutation};
ghost use Rattle.net_base.specs.Address.{same_address};
ghost use Rattle.peer_book.specs.Book.{addresses_of};
ghost use Rattle.govern_rules.specs.ClassRules.{count_of};
ghost use Rattle.govern_rules.specs.Links.{is_pending};
ghost use Rattle.govern_rules.specs.Search.{suits};
ghost use Rattle.govern_rules.specs.Tasks.{number_of};

use crate::found::Found;
use crate::numbers::{cold, missing_established};
use crate::search::Search;
use crate::seen::Seen;
use crate::task::Task;
use crate::walk::Walk;
use crate::wanted::Wanted;
use net_base::Peer;
use peer_book::PeerBook;
use std::alloc::{AllocError, Global};

// Who may be promoted, and how many are to be, by one walk through the book with the links beside it. It ends where as many
// are on their way as are missing, since nobody is wanted then.
pub fn find_promotable<'a>(
    alloc: Global,
    search: &Search,
    book: &'a PeerBook,
) -> Result<Wanted<'a>, AllocError>
    requires { search.now.task ≡ Task.Promoting }
    ensures number { IfOk result (λ wanted. wanted.number ≡ number_of search.now.task search.now.big search.now.view.now book.now) }
    ensures cands { IfOk result (λ wanted. 0 < wanted.number → IsPermutation (filter (suits search.now) book.now) wanted.cands) }
    ensures apart { IfOk result (λ wanted. 0 < wanted.number → IsDistinct same_address (addresses_of wanted.cands)) }
{
    let mut number = missing_established(search.big, search.view, book);
    if number == 0 {
        return Ok(Wanted {
            number,
            cands: Found::new(alloc),
        });
    }
    let mut cands = Found::with_room(alloc, cold(search.big, book) as usize)?;
    let mut walk = search.view.links.walk();
    let mut place = 0;
    while place < book.len() {
        let run = book.run_from(place);
        let pending = take_promotable(&mut cands, search, &mut walk, run)?;
        number = number.saturating_sub(pending);
        if number == 0 {
            return Ok(Wanted { number, cands });
        }
        place += run.len();
    }
    Ok(Wanted { number, cands })
}

// Those of some peers, behind others, with how many are on their way.
#[inline(always)]
fn take_promotable<'a>(
    cands: &mut Found<'a>,
    search: &Search,
    walk: &mut Walk,
    peers: &'a [Peer],
) -> Result<u64, AllocError>
    requires promoting { search.now.task ≡ Task.Promoting }
    requires walk { walk.old ≡ search.now.view.now.links }
    ensures same { walk.new ≡ walk.old }
    ensures cands { OnOk result (cands.new ≡ cands.old ++ filter (suits search.now) peers.now) }
    ensures pending { IfOk result (λ pending. pending ≡ count_of search.now.big (is_pending search.now.view.now.links) peers.now) }
{
    let mut pending = 0;
    for peer in peers {
        match search.look(peer, walk) {
            Seen::OnItsWay => pending += 1,
            Seen::Suits => cands.push(peer)?,
            Seen::Neither => {}
        }
    }
    Ok(pending)
}
