ghost use Rattle.std.specs.Prelude.{◌≡◌};
ghost use Rattle.timer_queue.specs.Trees.{sooner};

use crate::moments::Moments;
use least_tree::{NONE, key};
use net_base::{Cid, Deadline, Kind};

mod edit;
mod find;

pub use edit::{drop_gone, tree_over};
pub use find::{place_from, place_in, place_of, row_in};

// The moments of one connection's timers. One that has left has none, and its row stays until the rows are packed.
#[derive(Clone, Copy, PartialEq, Eq)]
pub struct Row {
    pub cid: Cid,
    pub enrolled: bool,
    pub moments: Moments,
}

impl Row {
    ghost use Rattle.timer_queue.specs.Kept.{IsOfWords};
    ghost use Rattle.timer_queue.specs.Keys.{key_in};
    ghost use Rattle.timer_queue.specs.Rows.{empty_row, gone_row};
    ghost use Rattle.timer_queue.specs.Trees.{first_in, timer_in};

    pub fn empty(cid: Cid) -> Row
        ensures { result ≡ empty_row cid }
    {
        Row {
            cid,
            enrolled: true,
            moments: Moments::none(),
        }
    }

    pub fn gone(cid: Cid) -> Row
        ensures { result ≡ gone_row cid }
    {
        Row {
            cid,
            enrolled: false,
            moments: Moments::none(),
        }
    }

    // Moment and id of its first timer, as one number.
    pub fn key(&self) -> u128
        ensures value { result ≡ key_in self.now }
        ensures words { IsOfWords self.now }
    {
        let id = self.cid.0;
        match self.moments.first() {
            Some(at) => key(at, id),
            None => NONE,
        }
    }

    // The one of its timers that fires first.
    pub fn first(&self) -> Option<Deadline>
        ensures { result ≡ first_in self.now }
    {
        let reply = sooner(self.timer(Kind::Reply8), self.timer(Kind::Reply10));
        let reply = sooner(self.timer(Kind::Reply2), reply);
        let late = sooner(self.timer(Kind::TimeWait), reply);
        let late = sooner(self.timer(Kind::Grace), late);
        sooner(self.timer(Kind::Handshake), late)
    }

    fn timer(&self, kind: Kind) -> Option<Deadline>
        ensures { result ≡ timer_in self.now kind }
    {
        let at = self.moments.of(kind)?;
        Some(Deadline {
            at,
            cid: self.cid,
            kind,
        })
    }
}

// The one of two that fires first.
fn sooner(one: Option<Deadline>, other: Option<Deadline>) -> Option<Deadline>
    ensures { result ≡ sooner one other }
{
    match (one, other) {
        (None, other) => other,
        (one, None) => one,
        (Some(one), Some(other)) => Some(if other.is_before(&one) { other } else { one }),
    }
}
