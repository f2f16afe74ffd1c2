ghost use Rattle.std.specs.Prelude.{◌≡◌, ◌<◌, ◌^◌, ◌∷◌, ◌++◌, [], length, IfOk, IfErr, OnErr};
ghost use Rattle.net_base.specs.Bounds.{AreSound};
ghost use Rattle.shared_table.specs.Entries.{noted};
ghost use Rattle.shared_table.specs.Gathers.{IsGathered};
ghost use Rattle.shared_table.specs.Seats.{IsAt, new_seat_at};
ghost use Rattle.shared_table.specs.Views.{Begins, IsMade};
ghost use Rattle.shared_table.specs.declared.call.TableCall.TheVariants as calls;

use crate::locked::Locked;
use crate::place::Place;
use crate::seat::Seat;
use crate::{Gathered, InCall, InSeat, Noted, OutCall, OutSeat, TableCall, TableReply, Torn};
use atomic_table::Badge;
use net_base::{OutOfMemory, Settings};
use std::alloc::Global;
use std::marker::Model;
use std::mem;
use std::sync::ledger::{Book, Ledger, Share};
use std::sync::{Mutex, Wait};

/// A table of connections under a lock, which the outbound and the inbound governor call from two threads. A call under
/// the lock is one step. A ledger counts the calls of each governor: `L` those of the outbound one, `M` those of the
/// inbound one. A seat with every part of the ledger is a seat at this table. Contracts see which table it is, and with
/// which settings it began.
#[derive(Drop)]
pub struct SharedTable<L: Ledger, M: Ledger> {
    // Whoever has it has the turn at the place. The place would let a caller ask again and again.
    lock: Mutex<()>,
    place: Place<Locked<L, M>>,
}

impl<L: Ledger, M: Ledger> Model for SharedTable<L, M> {
    ghost use Rattle.shared_table.specs.Views.{TableName};

    ghost Value = { TableName };

    ghost view = { λ t. t.place };
}

impl<L: Ledger, M: Ledger> SharedTable<L, M> {
    /// A table with no connection and no call, and its two seats. The ledgers are new, and their shares are whole. A
    /// refusal drops them.
    pub fn new(
        alloc: Global,
        settings: &Settings,
        out_book: Book<L>,
        out_share: Share<L>,
        in_book: Book<M>,
        in_share: Share<M>,
    ) -> Result<(SharedTable<L, M>, OutSeat<L>, InSeat<M>), OutOfMemory>
        requires settings { AreSound settings.now }
        requires out { (out_book.total ≡ 0) × (out_share.parts ≡ L.parts) × (0 < L.parts) }
        requires inn { (in_book.total ≡ 0) × (in_share.parts ≡ M.parts) × (0 < M.parts) }
        ensures settings { IfOk result (λ made. made.0.settings ≡ settings.now) }
        ensures out { IfOk result (λ made. made.1 ≡ new_seat_at L.parts made.0) }
        ensures inn { IfOk result (λ made. made.2 ≡ new_seat_at M.parts made.0) }
    {
        let (mut out_book, mut out_share) = (out_book, out_share);
        let (mut in_book, mut in_share) = (in_book, in_share);
        out_book.audit(&mut out_share);
        in_book.audit(&mut in_share);
        let locked = Locked::new(alloc, settings, out_book, in_book);
        let (place, out_badge, in_badge) = Place::new(alloc, locked, settings)?;
        let out = Seat::new(alloc, out_share, out_badge)?;
        let inn = Seat::new(alloc, in_share, in_badge)?;
        let lock = Mutex::new(());
        Ok((
            SharedTable { lock, place },
            OutSeat { seat: out },
            InSeat { seat: inn },
        ))
    }

    /// Makes a call of the outbound governor, which may wait for the other one's to end. The reply is the table's, at its
    /// place in the history. A refusal leaves the seat as it was.
    pub fn call_out<R: Wait>(
        &self,
        rt: &R,
        seat: &mut OutSeat<L>,
        call: OutCall,
    ) -> Result<TableReply, OutOfMemory>
        requires here { IsAt L.parts self.now seat.old }
        requires few { length seat.old.noted < 2 ^ 32 }
        ensures here { IsAt L.parts self.now seat.new }
        ensures ok { IfOk result (λ reply. seat.new.noted ≡ seat.old.noted ++ noted (calls.Out call) reply ∷ []) }
        ensures made { IfOk result (λ reply. IsMade self.now.settings seat.old.seen (calls.Out call) reply seat.new.seen) }
        ensures err { OnErr result (seat.new ≡ seat.old) }
    {
        let seat = &mut seat.seat;
        seat.noted.make_room()?;
        let _lock = self.lock.lock(rt);
        let badge = mem::replace(&mut seat.badge, Badge::blank());
        let mut taken = self.place.take(rt, badge);
        match taken.value.call_out(&mut seat.share, call) {
            Ok(reply) => {
                seat.badge = self.place.give_back(taken);
                seat.noted.put(Noted {
                    call: TableCall::Out(call),
                    reply,
                });
                Ok(reply)
            }
            Err(refused) => {
                seat.badge = self.place.leave(taken);
                Err(refused)
            }
        }
    }

    /// Makes a call of the inbound governor, which may wait for the other one's to end. The reply is the table's, at its
    /// place in the history. A refusal leaves the seat as it was.
    pub fn call_in<R: Wait>(
        &self,
        rt: &R,
        seat: &mut InSeat<M>,
        call: InCall,
    ) -> Result<TableReply, OutOfMemory>
        requires here { IsAt M.parts self.now seat.old }
        requires few { length seat.old.noted < 2 ^ 32 }
        ensures here { IsAt M.parts self.now seat.new }
        ensures ok { IfOk result (λ reply. seat.new.noted ≡ seat.old.noted ++ noted (calls.In call) reply ∷ []) }
        ensures made { IfOk result (λ reply. IsMade self.now.settings seat.old.seen (calls.In call) reply seat.new.seen) }
        ensures err { OnErr result (seat.new ≡ seat.old) }
    {
        let seat = &mut seat.seat;
        seat.noted.make_room()?;
        let _lock = self.lock.lock(rt);
        let badge = mem::replace(&mut seat.badge, Badge::blank());
        let mut taken = self.place.take(rt, badge);
        match taken.value.call_in(&mut seat.share, call) {
            Ok(reply) => {
                seat.badge = self.place.give_back(taken);
                seat.noted.put(Noted {
                    call: TableCall::In(call),
                    reply,
                });
                Ok(reply)
            }
            Err(refused) => {
                seat.badge = self.place.leave(taken);
                Err(refused)
            }
        }
    }

    /// The table with its history, once both seats are back. The calls of each governor in it are those that its seat kept,
    /// so nothing is compared, and `Torn` never comes.
    pub fn gather(self, out: OutSeat<L>, inn: InSeat<M>) -> Result<Gathered, Torn>
        requires out { IsAt L.parts self out }
        requires inn { IsAt M.parts self inn }
        ensures settings { IfOk result (λ g. g.table.settings ≡ self.settings) }
        ensures ok { IfOk result (λ g. IsGathered g out.noted inn.noted) }
        ensures seen { IfOk result (λ g. Begins out.seen g.history.items × Begins inn.seen g.history.items) }
        ensures whole { IfErr result (λ torn. ⊥) }
    {
        let (out, inn) = (out.into_seat(), inn.into_seat());
        let (made_out, made_in) = (out.made(), inn.made());
        let Seat {
            share: mut outs,
            badge: out,
            noted: _,
        } = out;
        let Seat {
            share: mut ins,
            badge: inn,
            noted: _,
        } = inn;
        let locked = self.place.into_value(out, inn);
        let (table, history) = locked.into_shared(&mut outs, &mut ins).into_parts();
        Ok(Gathered {
            table,
            history,
            made_out,
            made_in,
        })
    }
}
