ghost use Rattle.std.specs.Prelude.{◌≡◌, ◌<◌, ◌++◌, true, false, None, OnOk, OnErr, IfSome, IsSomeAnd, is_some, length};
ghost use Rattle.timer_queue.specs.Rows.{row_at, place_at, with_at, with_row, timers_of, AreMomentsOf};
ghost use Rattle.timer_queue.specs.Timers.{timer, least, HaveSame, without_cid};
ghost use Rattle.timer_queue.specs.Queue.{is_enrolled, empty_queue, with_enrolled, with_timer, without_timer, without_connection, least_due, without_fired};

use crate::moments::Moments;
use crate::rows::{Row, drop_gone, place_in, place_of, row_in, tree_over};
use least_tree::{LeastTree, NONE, second};
use net_base::{Cid, Deadline, Kind, OutOfMemory};
use std::alloc::Global;

// The moments of each connection, in order of id, and beside them a tree that has of each row its first timer, as one number:
// its moment and then the id. So the first timer of all is one of the row that the least number names.
#[derive(Drop)]
pub struct Kept {
    // those that have left among them
    pub rows: Vec<Row>,
    pub keys: LeastTree,
}

impl Kept {
    ghost use Rattle.timer_queue.specs.Kept.{IsKept, IsIdle, queue_of};

    pub fn new(alloc: Global) -> Kept
        ensures kept { IsKept result }
        ensures queue { queue_of result ≡ empty_queue }
    {
        Kept {
            rows: Vec::new(alloc),
            keys: LeastTree::new(alloc),
        }
    }

    // The timer that fires first.
    pub fn first(&self) -> Option<Deadline>
        requires { IsKept self.now }
        ensures { result ≡ least (queue_of self.now).timers }
    {
        let row = row_in(&self.rows, Cid(second(self.keys.least())))?;
        row.first()
    }

    pub fn has(&self, cid: Cid) -> bool
        requires { IsKept self.now }
        ensures { result ≡ is_enrolled cid (queue_of self.now) }
    {
        match place_in(&self.rows, cid) {
            Some(place) => self.rows[place].enrolled,
            None => false,
        }
    }

    // The moments of a connection's timers.
    pub fn moments(&self, cid: Cid) -> Moments
        requires { IsKept self.now }
        ensures { AreMomentsOf cid result (queue_of self.now).timers }
    {
        match place_in(&self.rows, cid) {
            Some(place) => self.rows[place].moments,
            None => Moments::none(),
        }
    }

    pub fn enroll(&mut self, cid: Cid) -> Result<(), OutOfMemory>
        requires { IsKept self.old }
        ensures kept { IsKept self.new }
        ensures ok { OnOk result (queue_of self.new ≡ with_enrolled cid (queue_of self.old)) }
        ensures err { OnErr result (queue_of self.new ≡ queue_of self.old) }
        ensures only_new { OnErr result (is_enrolled cid (queue_of self.old) ≡ false) }
    {
        if self.has(cid) {
            return Ok(());
        }
        self.make_room()?;
        self.admit(cid);
        Ok(())
    }

    // Makes room for one more row.
    fn make_room(&mut self) -> Result<(), OutOfMemory>
        requires { IsKept self.old }
        ensures kept { IsKept self.new }
        ensures queue { queue_of self.new ≡ queue_of self.old }
        ensures room { OnOk result (length self.new.rows.items < length self.new.keys) }
    {
        if self.rows.len() < self.keys.len() {
            return Ok(());
        }
        let keys = tree_over(*self.rows.allocator(), &self.rows)?;
        let more = keys.len().saturating_sub(self.rows.len());
        self.rows.try_reserve(more)?;
        drop_gone(&mut self.rows);
        self.keys = keys;
        Ok(())
    }

    // A connection with no timers, where there is room for a row. One that comes again gets the row that it had.
    fn admit(&mut self, cid: Cid)
        requires kept { IsKept self.old }
        requires absent { is_enrolled cid (queue_of self.old) ≡ false }
        requires room { length self.old.rows.items < length self.old.keys }
        ensures kept { IsKept self.new }
        ensures queue { queue_of self.new ≡ with_enrolled cid (queue_of self.old) }
    {
        match place_in(&self.rows, cid) {
            Some(place) => self.put_row(place, Row::empty(cid)),
            None => self.insert(cid),
        }
    }

    // Puts in a row of an id that has none. It has no timer, so where it is the last the tree stays.
    fn insert(&mut self, cid: Cid)
        requires kept { IsKept self.old }
        requires absent { row_at cid self.old.rows.items ≡ None }
        requires room { length self.old.rows.items < length self.old.keys }
        ensures kept { IsKept self.new }
        ensures queue { queue_of self.new ≡ with_enrolled cid (queue_of self.old) }
    {
        let place = place_of(&self.rows, cid);
        let is_last = place == self.rows.len();
        // there is room
        let _ = self.rows.insert(place, Row::empty(cid));
        if !is_last {
            self.keys.insert(place, NONE);
        }
    }

    pub fn set(&mut self, cid: Cid, kind: Kind, at: u64)
        requires kept { IsKept self.old }
        requires enrolled { is_enrolled cid (queue_of self.old) ≡ true }
        ensures kept { IsKept self.new }
        ensures queue { queue_of self.new ≡ with_timer (timer cid kind at) (queue_of self.old) }
    {
        let place = place_of(&self.rows, cid);
        self.put_moment(cid, place, kind, Some(at));
    }

    // All six timers of a connection.
    pub fn put(&mut self, cid: Cid, moments: &Moments)
        requires kept { IsKept self.old }
        requires enrolled { is_enrolled cid (queue_of self.old) ≡ true }
        ensures kept { IsKept self.new }
        ensures enrolled { (queue_of self.new).enrolled ≡ (queue_of self.old).enrolled }
        ensures timers { HaveSame (queue_of self.new).timers (timers_of cid moments.now ++ without_cid cid (queue_of self.old).timers) }
    {
        let place = place_of(&self.rows, cid);
        if self.rows[place].moments == *moments {
            return;
        }
        let row = Row {
            cid,
            enrolled: true,
            moments: *moments,
        };
        self.put_row(place, row);
    }

    // Puts a row in the place of the one of its id. Where its first timer is the same, the tree stays.
    #[inline(always)]
    fn put_row(&mut self, place: usize, row: Row)
        requires kept { IsKept self.old }
        requires there { is_some (row_at row.cid self.old.rows.items) ≡ true }
        requires place { place ≡ place_at row.cid self.old.rows.items }
        requires idle { IsIdle row }
        ensures kept { IsKept self.new }
        ensures rows { self.new.rows.items ≡ with_row row self.old.rows.items }
    {
        self.keys.put(place, row.key());
        self.rows[place] = row;
    }

    // The timer of a kind of a connection, whose row is at a place, is at another moment, or is set no more.
    fn put_moment(&mut self, cid: Cid, place: usize, kind: Kind, at: Option<u64>)
        requires kept { IsKept self.old }
        requires place { place ≡ place_at cid self.old.rows.items }
        requires idle { IsSomeAnd (row_at cid self.old.rows.items) (λ row. IsIdle (with_at kind at row)) }
        ensures kept { IsKept self.new }
        ensures rows { IfSome (row_at cid self.old.rows.items)
            (λ row. self.new.rows.items ≡ with_row (with_at kind at row) self.old.rows.items) }
    {
        let row = &mut self.rows[place];
        row.moments.replace(kind, at);
        let key = row.key();
        self.keys.put(place, key);
    }

    pub fn clear(&mut self, cid: Cid, kind: Kind)
        requires { IsKept self.old }
        ensures kept { IsKept self.new }
        ensures queue { queue_of self.new ≡ without_timer cid kind (queue_of self.old) }
    {
        let Some(place) = place_in(&self.rows, cid) else {
            return;
        };
        self.put_moment(cid, place, kind, None);
    }

    pub fn leave(&mut self, cid: Cid)
        requires { IsKept self.old }
        ensures kept { IsKept self.new }
        ensures queue { queue_of self.new ≡ without_connection cid (queue_of self.old) }
    {
        let Some(place) = place_in(&self.rows, cid) else {
            return;
        };
        self.put_row(place, Row::gone(cid));
    }

    pub fn pop_due(&mut self, now: u64) -> Option<Deadline>
        requires { IsKept self.old }
        ensures kept { IsKept self.new }
        ensures answer { result ≡ least_due now (queue_of self.old) }
        ensures queue { queue_of self.new ≡ without_fired result (queue_of self.old) }
    {
        let fired = self.due(now)?;
        self.clear(fired.cid, fired.kind);
        Some(fired)
    }

    fn due(&self, now: u64) -> Option<Deadline>
        requires { IsKept self.now }
        ensures { result ≡ least_due now (queue_of self.now) }
    {
        let first = self.first()?;
        (first.at <= now).then_some(first)
    }
}
