ghost use Rattle.std.specs.Prelude.{◌≡◌, ◌<◌, [], length, IfOk};
ghost use Rattle.shared_table.specs.Entries.{calls_of};
ghost use Rattle.shared_table.specs.Views.{IsWaiting, seen_of, settings_of};
ghost use Rattle.shared_table.specs.declared.who.Who.TheVariants.{Out, In};

use crate::view::View;
use crate::{Log, NotedList};
use atomic_table::Badge;
use net_base::OutOfMemory;
use std::alloc::Global;
use std::marker::Model;
use std::sync::ledger::{Ledger, Share};

// What both governors' seats are: a share of a ledger, which rises by one with each call, what was seen of the table's
// history, which takes no bytes, and the calls.
#[derive(Drop)]
pub struct Seat<L: Ledger> {
    pub share: Share<L>,
    pub badge: Badge<View>,
    pub noted: NotedList,
}

impl<L: Ledger> Model for Seat<L> {
    ghost use Rattle.std.specs.Prelude.{◌≡◌, ◌<◌, length};
    ghost use Rattle.shared_table.specs.Seats.{Seated};
    ghost use Rattle.shared_table.specs.Views.{IsWaiting, seen_of, settings_of};

    ghost Value = { Seated };

    ghost view = { λ s. record {
      parts = s.share.parts;
      id = s.badge.table_id;
      settings = settings_of s.badge.views;
      noted = s.noted.items;
      seen = seen_of s.badge.views;
    } };

    ghost invariant = { λ s. (0 < s.share.parts) × (s.share.amount ≡ length s.noted.items) × IsWaiting s.badge.views };
}

impl<L: Ledger> Seat<L> {
    // No call yet. There is room for the first one.
    pub fn new(alloc: Global, share: Share<L>, badge: Badge<View>) -> Result<Seat<L>, OutOfMemory>
        requires parts { 0 < share.parts }
        requires amount { share.amount ≡ 0 }
        requires waits { IsWaiting badge.views }
        ensures { IfOk result (λ seat. seat ≡ record {
          parts = share.parts;
          id = badge.table_id;
          settings = settings_of badge.views;
          noted = [];
          seen = seen_of badge.views;
        }) }
    {
        let mut noted = Log::new(alloc);
        noted.make_room()?;
        Ok(Seat {
            share,
            badge,
            noted,
        })
    }

    pub fn noted(&self) -> &NotedList
        ensures { result.now.items ≡ self.now.noted }
    {
        &self.noted
    }

    pub fn made(&self) -> u64
        ensures { result ≡ length self.now.noted }
    {
        self.noted.as_slice().len() as u64
    }
}

/// The seat of the outbound governor at a table. It keeps the calls that it made, with their replies.
#[derive(Drop)]
pub struct OutSeat<L: Ledger> {
    pub(crate) seat: Seat<L>,
}

impl<L: Ledger> Model for OutSeat<L> {
    ghost use Rattle.std.specs.Prelude.{◌≡◌};
    ghost use Rattle.shared_table.specs.Entries.{calls_of};
    ghost use Rattle.shared_table.specs.Seats.{Seated};
    ghost use Rattle.shared_table.specs.declared.who.Who.TheVariants.{Out};

    ghost Value = { Seated };

    ghost view = { λ s. s.seat };

    ghost invariant = { λ s. calls_of Out s.seat.seen ≡ s.seat.noted };
}

impl<L: Ledger> OutSeat<L> {
    // The seat as both governors have it.
    pub(crate) fn into_seat(self) -> Seat<L>
        ensures same { result ≡ self }
        ensures kept { calls_of Out result.seen ≡ result.noted }
    {
        self.seat
    }

    /// The calls with their replies, in the order in which they were made.
    pub fn noted(&self) -> &NotedList
        ensures { result.now.items ≡ self.now.noted }
    {
        self.seat.noted()
    }

    /// How many calls were made.
    pub fn made(&self) -> u64
        ensures { result ≡ length self.now.noted }
    {
        self.seat.made()
    }
}

/// The seat of the inbound governor at a table. It keeps the calls that it made, with their replies.
#[derive(Drop)]
pub struct InSeat<M: Ledger> {
    pub(crate) seat: Seat<M>,
}

impl<M: Ledger> Model for InSeat<M> {
    ghost use Rattle.std.specs.Prelude.{◌≡◌};
    ghost use Rattle.shared_table.specs.Entries.{calls_of};
    ghost use Rattle.shared_table.specs.Seats.{Seated};
    ghost use Rattle.shared_table.specs.declared.who.Who.TheVariants.{In};

    ghost Value = { Seated };

    ghost view = { λ s. s.seat };

    ghost invariant = { λ s. calls_of In s.seat.seen ≡ s.seat.noted };
}

impl<M: Ledger> InSeat<M> {
    // The seat as both governors have it.
    pub(crate) fn into_seat(self) -> Seat<M>
        ensures same { result ≡ self }
        ensures kept { calls_of In result.seen ≡ result.noted }
    {
        self.seat
    }

    /// The calls with their replies, in the order in which they were made.
    pub fn noted(&self) -> &NotedList
        ensures { result.now.items ≡ self.now.noted }
    {
        self.seat.noted()
    }

    /// How many calls were made.
    pub fn made(&self) -> u64
        ensures { result ≡ length self.now.noted }
    {
        self.seat.made()
    }
}
