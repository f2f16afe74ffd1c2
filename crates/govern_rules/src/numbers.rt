ghost use Rattle.std.specs.Prelude.{◌≡◌, ◌-◌};
ghost use Rattle.peer_book.specs.Book.{known_of, established_of, active_of};
ghost use Rattle.govern_rules.specs.ClassRules.{known_target, established_target, active_target};
ghost use Rattle.govern_rules.specs.Tasks.{number_of};

use crate::View;
use crate::mark::Mark;
use crate::marked::without_marked;
use crate::task::Task;
use peer_book::PeerBook;

// How many orders a rule by the targets gives at most.
#[inline(always)]
pub fn number_of(task: Task, big: bool, view: &View, book: &PeerBook) -> u64
    ensures { result ≡ number_of task big view.now book.now }
{
    match task {
        Task::Asking(_) => to_ask(big, view, book),
        Task::Forgetting => known(big, book).saturating_sub(known_target(big, view)),
        Task::Promoting => to_promote(big, view, book),
        Task::Releasing => established(big, book).saturating_sub(established_target(big, view)),
        Task::Activating => to_activate(big, view, book),
        Task::Deactivating => active(big, book).saturating_sub(active_target(big, view)),
    }
}

fn to_ask(big: bool, view: &View, book: &PeerBook) -> u64
    ensures { result ≡ number_of (Task.Asking 0) big view.now book.now }
{
    if known(big, book) >= known_target(big, view) {
        return 0;
    }
    without_marked(view.settings.shares, Mark::Owes10, big, view, book)
}

fn to_promote(big: bool, view: &View, book: &PeerBook) -> u64
    ensures { result ≡ number_of Task.Promoting big view.now book.now }
{
    let missing = missing_established(big, view, book);
    without_marked(missing, Mark::Pending, big, view, book)
}

// How many fewer are established than wanted, whoever is on the way.
pub fn missing_established(big: bool, view: &View, book: &PeerBook) -> u64
    ensures { result ≡ established_target big view.now - established_of big book.now }
{
    established_target(big, view).saturating_sub(established(big, book))
}

fn to_activate(big: bool, view: &View, book: &PeerBook) -> u64
    ensures { result ≡ number_of Task.Activating big view.now book.now }
{
    let missing = active_target(big, view).saturating_sub(active(big, book));
    without_marked(missing, Mark::Owes2, big, view, book)
}

pub fn cold(big: bool, book: &PeerBook) -> u64
    ensures { result ≡ known_of big book.now - established_of big book.now }
{
    known(big, book).saturating_sub(established(big, book))
}

fn known(big: bool, book: &PeerBook) -> u64
    ensures { result ≡ known_of big book.now }
{
    if big { book.big_known() } else { book.known() }
}

fn established(big: bool, book: &PeerBook) -> u64
    ensures { result ≡ established_of big book.now }
{
    if big {
        book.big_established()
    } else {
        book.established()
    }
}

fn active(big: bool, book: &PeerBook) -> u64
    ensures { result ≡ active_of big book.now }
{
    if big {
        book.big_active()
    } else {
        book.active()
    }
}

fn known_target(big: bool, view: &View) -> u64
    ensures { result ≡ known_target big view.now }
{
    if big {
        view.big.known
    } else {
        view.targets.known
    }
}

fn established_target(big: bool, view: &View) -> u64
    ensures { result ≡ established_target big view.now }
{
    if big {
        view.big.established
    } else {
        view.targets.established
    }
}

fn active_target(big: bool, view: &View) -> u64
    ensures { result ≡ active_target big view.now }
{
    if big {
        view.big.active
    } else {
        view.targets.active
    }
}
