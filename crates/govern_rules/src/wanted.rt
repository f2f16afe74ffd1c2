ghost use Rattle.std.specs.Prelude.{◌≡◌, ◌<◌, filter, IfOk};
ghost use Rattle.std.specs.List.{IsDistinct};
ghost use Rattle.std.specs.List.Sorted.{IsPermutation};
ghost use Rattle.net_base.specs.Address.{same_address};
ghost use Rattle.peer_book.specs.Book.{addresses_of};
ghost use Rattle.govern_rules.specs.Search.{suits};
ghost use Rattle.govern_rules.specs.Tasks.{number_of};

use crate::candidates::candidates;
use crate::found::Found;
use crate::mark::Mark;
use crate::numbers::number_of;
use crate::promotable::find_promotable;
use crate::search::Search;
use crate::task::Task;
use peer_book::PeerBook;
use std::alloc::{AllocError, Global};

// How many orders a rule by the targets gives at most, and who may be given one.
pub struct Wanted<'a> {
    pub number: u64,
    pub cands: Found<'a>,
}

// Where none is wanted, no peer is looked at. Where the links by which rules count are many beside the peers, whoever may be
// promoted is found by the walk that counts.
#[inline(always)]
pub fn find_wanted<'a>(
    alloc: Global,
    search: &Search,
    book: &'a PeerBook,
) -> Result<Wanted<'a>, AllocError>
    ensures number { IfOk result (λ wanted. wanted.number ≡ number_of search.now.task search.now.big search.now.view.now book.now) }
    ensures cands { IfOk result (λ wanted. 0 < wanted.number → IsPermutation (filter (suits search.now) book.now) wanted.cands) }
    ensures apart { IfOk result (λ wanted. 0 < wanted.number → IsDistinct same_address (addresses_of wanted.cands)) }
{
    if let Task::Promoting = search.task
        && search.view.links.marked(Mark::Pending).len() > book.len() / 4
    {
        return find_promotable(alloc, search, book);
    }
    let number = number_of(search.task, search.big, search.view, book);
    if number == 0 {
        return Ok(Wanted {
            number,
            cands: Found::new(alloc),
        });
    }
    let cands = candidates(alloc, search, book)?;
    Ok(Wanted { number, cands })
}
