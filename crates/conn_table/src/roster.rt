ghost use Rattle.std.specs.Prelude.{◌≡◌, ◌+◌, ◌++◌, ◌∷◌, ◌<◌, ◌^◌, [], length, Some, None, OnOk, OnErr, IsSome, IsSomeAnd, IfSome, slice_get, ℕ, if◌then◌else◌};
ghost use Rattle.std.specs.Option.{option_copied, option_map};
ghost use Rattle.conn_state.specs.State.{facts_of};
ghost use Rattle.conn_state.specs.Use.{facts_at, live_at};
ghost use Rattle.conn_table.specs.Conditions.{CanStep, after_step};
ghost use Rattle.conn_table.specs.Index.{placed_of};
ghost use Rattle.conn_table.specs.Finds.{id_place, newest, found_with, StandsAt};
ghost use Rattle.conn_table.specs.Table.{moved_at, without_at};

use crate::step::{Step, Turned};
use crate::{Placed, Recent};
use chunked_list::ChunkedList;
use conn_state::ConnState;
use conn_state::facts::{is_counted, is_live};
use net_base::{Cid, Facts, OutOfMemory};
use std::alloc::Global;

/// The connections in order of id, and what is kept beside them. Whoever has one keeps it as its calls leave it. Places
/// are counted from 0.
#[derive(Drop)]
pub struct Roster {
    pub states: ChunkedList<ConnState>,
    /// How many the limits count.
    pub counted: u64,
    /// How many ids were given.
    pub given: u64,
    /// The connection that something happened to last: a look for it is short.
    pub recent: Option<Recent>,
}

impl Roster {
    ghost use Rattle.conn_table.specs.Rosters.{IsKept, facts_kept};

    /// No connection yet, and no id given. Takes no memory.
    pub fn new(alloc: Global) -> Roster
        ensures kept { IsKept result }
        ensures facts { facts_kept result ≡ [] }
        ensures given { result.given ≡ 0 }
    {
        Roster {
            states: ChunkedList::new(alloc),
            counted: 0,
            given: 0,
            recent: None,
        }
    }

    /// What is known of the connection with an id. None where there is none.
    pub fn facts(&self, cid: Cid) -> Option<&Facts>
        requires { IsKept self.now }
        ensures { option_copied result ≡ facts_at cid.0 (facts_kept self.now) }
    {
        self.facts_there(self.place_of(cid), cid)
    }

    /// Where the live connection of an address stands, of which the last one that has it is told: only that one may be live.
    pub fn if_live(&self, last: Placed) -> Option<usize>
        requires kept { IsKept self.now }
        requires last { option_map placed_of (newest last.addr (facts_kept self.now)) ≡ Some last }
        ensures { StandsAt (facts_kept self.now) (live_at last.addr (facts_kept self.now)) result }
    {
        let place = self.place_of(last.cid);
        if is_live(self.at(place)) {
            Some(place)
        } else {
            None
        }
    }

    /// What is known of the connection at a place.
    pub fn at(&self, place: usize) -> &Facts
        requires { place < length (facts_kept self.now) }
        ensures { slice_get (facts_kept self.now) place ≡ Some result.now }
    {
        self.states.at(place).as_facts()
    }

    /// Takes in a connection under the next id. A refusal changes nothing.
    pub fn enter(&mut self, state: ConnState) -> Result<(), OutOfMemory>
        requires kept { IsKept self.old }
        requires next { (facts_of state).cid.0 ≡ self.old.given + 1 }
        requires few { self.old.given < 2 ^ 48 }
        requires alone { live_at (facts_of state).addr (facts_kept self.old) ≡ None }
        ensures kept { IsKept self.new }
        ensures ok { OnOk result (facts_kept self.new ≡ facts_kept self.old ++ facts_of state ∷ []) }
        ensures given { OnOk result (self.new.given ≡ self.old.given + 1) }
        ensures err { OnErr result (facts_kept self.new ≡ facts_kept self.old) }
        ensures none_given { OnErr result (self.new.given ≡ self.old.given) }
    {
        let is_counted = is_counted(state.as_facts());
        self.states.push(state)?;
        self.counted = recounted(self.counted, false, is_counted);
        self.given += 1;
        self.recent = None;
        Ok(())
    }

    /// A connection makes a move that it has. The answer is what was known of it before.
    pub fn turn(&mut self, cid: Cid, step: Step) -> Facts
        requires kept { IsKept self.old }
        requires can { IsSomeAnd (facts_at cid.0 (facts_kept self.old)) (CanStep step) }
        ensures was { facts_at cid.0 (facts_kept self.old) ≡ Some result }
        ensures kept { IsKept self.new }
        ensures facts { facts_kept self.new ≡ moved_at cid.0 (after_step step) (facts_kept self.old) }
        ensures given { self.new.given ≡ self.old.given }
    {
        let place = self.place_of(cid);
        self.turn_at(place, step)
    }

    /// The connection at a place makes a move that it has. The answer is what was known of it before.
    pub fn turn_at(&mut self, place: usize, step: Step) -> Facts
        requires kept { IsKept self.old }
        requires can { IsSomeAnd (slice_get (facts_kept self.old) place) (CanStep step) }
        ensures was { slice_get (facts_kept self.old) place ≡ Some result }
        ensures kept { IsKept self.new }
        ensures facts { facts_kept self.new ≡ moved_at result.cid.0 (after_step step) (facts_kept self.old) }
        ensures given { self.new.given ≡ self.old.given }
    {
        let Turned { was, counted } = self.states.change(place, step);
        self.counted = recounted(self.counted, is_counted(&was), counted);
        self.recent = Some(Recent {
            cid: was.cid,
            place,
        });
        was
    }

    /// A connection that stands goes. The answer is what was known of it.
    pub fn remove(&mut self, cid: Cid) -> Facts
        requires kept { IsKept self.old }
        requires there { IsSome (facts_at cid.0 (facts_kept self.old)) }
        ensures was { facts_at cid.0 (facts_kept self.old) ≡ Some result }
        ensures kept { IsKept self.new }
        ensures facts { facts_kept self.new ≡ without_at cid.0 (facts_kept self.old) }
        ensures given { self.new.given ≡ self.old.given }
    {
        let place = self.place_of(cid);
        self.remove_at(place)
    }

    /// The connection at a place goes. The answer is what was known of it.
    pub fn remove_at(&mut self, place: usize) -> Facts
        requires kept { IsKept self.old }
        requires there { place < length (facts_kept self.old) }
        ensures was { slice_get (facts_kept self.old) place ≡ Some result }
        ensures kept { IsKept self.new }
        ensures facts { facts_kept self.new ≡ without_at result.cid.0 (facts_kept self.old) }
        ensures given { self.new.given ≡ self.old.given }
    {
        let facts = self.states.remove(place).facts();
        self.counted = recounted(self.counted, is_counted(&facts), false);
        self.recent = None;
        facts
    }

    /// How many connections have a lower id. The one with the id stands at that place, where there is one.
    pub fn place_of(&self, cid: Cid) -> usize
        requires { IsKept self.now }
        ensures { result ≡ id_place cid.0 (facts_kept self.now) }
    {
        match self.recent {
            Some(recent) if recent.cid == cid => recent.place,
            _ => self.place_by_id(cid),
        }
    }

    // The same of one that was not looked for last.
    fn place_by_id(&self, cid: Cid) -> usize
        requires { IsKept self.now }
        ensures { result ≡ id_place cid.0 (facts_kept self.now) }
    {
        match self.place_by_last(cid) {
            Some(place) => place,
            None => self
                .states
                .partition_point(|state| state.as_facts().cid < cid),
        }
    }

    // The same of a connection from which on no id up to the last one is missing, as most are that came of late.
    fn place_by_last(&self, cid: Cid) -> Option<usize>
        requires { IsKept self.now }
        ensures { IfSome result (λ place. place ≡ id_place cid.0 (facts_kept self.now)) }
    {
        let end = self.states.len().checked_sub(1)?;
        let behind = self.at(end).cid.0.checked_sub(cid.0)? as usize;
        let place = end.checked_sub(behind)?;
        if self.at(place).cid == cid {
            Some(place)
        } else {
            None
        }
    }

    // What is known of the connection at a place, where it has an id.
    fn facts_there(&self, place: usize, cid: Cid) -> Option<&Facts>
        ensures { option_copied result ≡ found_with cid.0 (slice_get (facts_kept self.now) place) }
    {
        let facts = self.states.get(place)?.as_facts();
        if facts.cid == cid { Some(facts) } else { None }
    }
}

// A count after one that was counted or not is counted or not.
fn recounted(count: u64, was: bool, is: bool) -> u64
    requires { (rest : ℕ) × (count ≡ rest + (if was then 1 else 0)) × (rest < 2 ^ 63) }
    ensures { result + (if was then 1 else 0) ≡ count + (if is then 1 else 0) }
{
    match (was, is) {
        (true, false) => count - 1,
        (false, true) => count + 1,
        (true, true) | (false, false) => count,
    }
}
