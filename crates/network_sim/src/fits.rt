ghost use Rattle.std.specs.Prelude.{◌≡◌, true, All};
ghost use Rattle.net_base.specs.Limits.{IsWithinLimits, HasValencies};

use net_base::{Event, Group, INTERVAL_MOST, NUMBER_MOST, RootAnswer};

// One read of a socket brings at most so much.
const PIECE_MOST: usize = 65_536;

/// Whether a trace may hold an event. Nodes are given no other.
pub(crate) fn fits(event: &Event) -> bool
    ensures only { result ≡ true → IsWithinLimits event.now }
    ensures all { IsWithinLimits event.now → result ≡ true }
{
    match event {
        Event::Now(moment) => *moment <= NUMBER_MOST,
        Event::Govern(_) | Event::Accepted(_) | Event::Bigs(_) => true,
        Event::Dialed(cid, _) | Event::Closed(cid) => cid.0 <= NUMBER_MOST,
        Event::Bytes(cid, bytes) => {
            let size = bytes.as_slice().len();
            cid.0 <= NUMBER_MOST && 1 <= size && size <= PIECE_MOST
        }
        Event::Aims(targets) => targets.check().is_none(),
        Event::BigAims(targets) => targets.check().is_none(),
        Event::Locals(groups) => have_valencies(groups.as_slice()),
        Event::Roots(job, RootAnswer::Found(time, _)) => {
            job.0 <= NUMBER_MOST && 1 <= *time && *time <= INTERVAL_MOST
        }
        Event::Roots(job, RootAnswer::Failed) => job.0 <= NUMBER_MOST,
    }
}

fn have_valencies(groups: &[Group]) -> bool
    ensures only { result ≡ true → All HasValencies groups.now }
    ensures all { All HasValencies groups.now → result ≡ true }
{
    for group in groups {
        if group.hot > 10_000 || group.warm > 10_000 {
            return false;
        }
    }
    true
}
