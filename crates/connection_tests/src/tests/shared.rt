ghost use Rattle.std.specs.Prelude.{◌≡◌, ◌+◌, ◌<◌, ◌≤◌, ◌^◌, [], length, IfOk, OnOk};
ghost use Rattle.net_base.specs.Bounds.{AreSound};
ghost use Rattle.shared_table.specs.Seats.{IsAt, new_seat_at};

use super::table::answers;
use super::{AT_3002, AT_3003, BOTH_WAYS, settings};
use conn_state::names::name_of;
use conn_table::{ConnTable, GraceEnd};
use net_base::{Cid, Settings, StateName};
use shared_table::{
    Entry, Gate, Gathered, InCall, InCallList, InSeat, Noted, OutCall, OutCallList, OutSeat,
    Shared, SharedTable, TableCall, TableReply, Torn, Who, WorkEnd, first_torn, run_two,
};
use std::alloc::Global;
use std::marker::Brand;
use std::process::Abort;
use std::sync::Wait;
use std::sync::atomic::{AtomicBool, Ordering};
use std::sync::ledger::{Blank, Ledger};
use std::test::Fail;
use std::thread;
use std::thread::Threads;

// A call of the outbound governor with its reply.
macro_rules! out {
    ($call:expr, $reply:expr) => {
        Entry {
            who: Who::Out,
            call: TableCall::Out($call),
            reply: $reply,
        }
    };
}

// One of the inbound governor.
macro_rules! inn {
    ($call:expr, $reply:expr) => {
        Entry {
            who: Who::In,
            call: TableCall::In($call),
            reply: $reply,
        }
    };
}

mod every_call;

const FIRST: Cid = Cid(1);

// Seven calls of both governors on one connection, with their replies.
const TALK: [Entry; 7] = [
    inn!(InCall::Admit(AT_3002, 0), TableReply::Made(FIRST)),
    out!(
        OutCall::Acquire(AT_3002),
        TableReply::NotReusable(StateName::UnnegotiatedInbound)
    ),
    inn!(InCall::Agreed(FIRST, BOTH_WAYS, 0), TableReply::Done),
    out!(OutCall::Acquire(AT_3002), TableReply::Leased(FIRST)),
    inn!(InCall::GraceOver(FIRST, 4999), TableReply::Unmet),
    inn!(
        InCall::GraceOver(FIRST, 5000),
        TableReply::Grace(GraceEnd::Expired)
    ),
    out!(OutCall::Release(FIRST, 5000), TableReply::Done),
];

fn are_answered(rt: &impl Abort, shared: &mut Shared, entries: &[Entry]) -> Result<(), Fail> {
    for entry in entries {
        answers(rt, shared, entry.call, entry.reply)?;
    }
    assert!(rt; shared.history().as_slice() == entries);
    Ok(())
}

fn is_kept_for_this_side(rt: &impl Abort, table: &ConnTable) {
    let facts = table.facts(FIRST);
    assert!(rt; matches!(facts, Some(facts) if name_of(&facts) == StateName::OutboundIdle));
}

#[test]
fn calls_of_both_are_answered_in_turn(rt: HostRuntime) -> Result<(), Fail> {
    let mut shared = Shared::new(rt.alloc(), &settings());
    are_answered(&rt, &mut shared, &TALK)?;
    is_kept_for_this_side(&rt, shared.table());
    Ok(())
}

fn is_talk(rt: &impl Abort, gathered: &Gathered) {
    assert!(rt; gathered.history.as_slice() == TALK.as_slice());
    assert!(rt; gathered.made_out == 3 && gathered.made_in == 4);
    assert!(rt; gathered.table.given() == 1);
}

#[test]
fn calls_of_both_seats_are_gathered(rt: HostRuntime) -> Result<(), Fail> {
    let gathered = gathered(&rt, rt.alloc(), &settings(), &TALK)?;
    is_talk(&rt, &gathered);
    Ok(())
}

// Makes calls through their governors' seats at a table of their own.
fn gathered<R: Wait + Abort>(
    rt: &R,
    alloc: Global,
    settings: &Settings,
    entries: &[Entry],
) -> Result<Gathered, Fail>
    requires settings { AreSound settings.now }
    requires few { length entries.now < 2 ^ 32 }
{
    let (outs, ins) = (Blank::new(1), Blank::new(1));
    gathered_after::<Brand, Brand, _>(rt, alloc, settings, entries, outs, ins)
}

// A table with no connection and no call, and its two seats.
fn opened<L: Ledger, M: Ledger>(
    alloc: Global,
    settings: &Settings,
    outs: Blank,
    ins: Blank,
) -> Result<(SharedTable<L, M>, OutSeat<L>, InSeat<M>), Fail>
    requires settings { AreSound settings.now }
    requires outs { (outs.name ≡ L.name) × (outs.parts ≡ L.parts) × (0 < L.parts) }
    requires ins { (ins.name ≡ M.name) × (ins.parts ≡ M.parts) × (0 < M.parts) }
    ensures out { IfOk result (λ made. made.1 ≡ new_seat_at L.parts made.0) }
    ensures inn { IfOk result (λ made. made.2 ≡ new_seat_at M.parts made.0) }
{
    let (out_book, out_share) = outs.open::<L>();
    let (in_book, in_share) = ins.open::<M>();
    Ok(SharedTable::new(alloc, settings, out_book, out_share, in_book, in_share)?)
}

// Both seats are back.
fn gather<L: Ledger, M: Ledger>(
    rt: &impl Abort,
    table: SharedTable<L, M>,
    out: OutSeat<L>,
    inn: InSeat<M>,
) -> Result<Gathered, Fail>
    requires { IsAt L.parts table out × IsAt M.parts table inn }
{
    let (outs, ins) = (out.made(), inn.made());
    let Ok(gathered) = table.gather(out, inn) else {
        return Err("it is torn".into());
    };
    assert!(rt; gathered.made_out == outs && gathered.made_in == ins);
    Ok(gathered)
}

// Makes calls through their governors' seats, compares each reply with the one that stands beside it, and gathers.
fn gathered_after<L: Ledger, M: Ledger, R: Wait + Abort>(
    rt: &R,
    alloc: Global,
    settings: &Settings,
    entries: &[Entry],
    outs: Blank,
    ins: Blank,
) -> Result<Gathered, Fail>
    requires settings { AreSound settings.now }
    requires few { length entries.now < 2 ^ 32 }
    requires outs { (outs.name ≡ L.name) × (outs.parts ≡ L.parts) × (0 < L.parts) }
    requires ins { (ins.name ≡ M.name) × (ins.parts ≡ M.parts) × (0 < M.parts) }
{
    let (table, mut out, mut inn) = opened::<L, M>(alloc, settings, outs, ins)?;
    ask_all(rt, &table, &mut out, &mut inn, entries)?;
    has_noted(rt, &out, &inn);
    gather(rt, table, out, inn)
}

fn has_noted<L: Ledger, M: Ledger>(rt: &impl Abort, out: &OutSeat<L>, inn: &InSeat<M>) {
    assert!(rt; out.noted().as_slice().len() as u64 == out.made());
    assert!(rt; inn.noted().as_slice().len() as u64 == inn.made());
}

// Makes calls through seats at which none was made yet, one after another, and compares each reply.
fn ask_all<L: Ledger, M: Ledger, R: Wait + Abort>(
    rt: &R,
    table: &SharedTable<L, M>,
    out: &mut OutSeat<L>,
    inn: &mut InSeat<M>,
    entries: &[Entry],
) -> Result<(), Fail>
    requires here { IsAt L.parts table.now out.old × IsAt M.parts table.now inn.old }
    requires none { (out.old.noted ≡ []) × (inn.old.noted ≡ []) }
    requires few { length entries.now < 2 ^ 32 }
    ensures here { IsAt L.parts table.now out.new × IsAt M.parts table.now inn.new }
{
    for entry in entries {
        ask(rt, table, out, inn, entry)?;
    }
    Ok(())
}

// Makes a call through its governor's seat, and compares the reply.
fn ask<L: Ledger, M: Ledger, R: Wait + Abort>(
    rt: &R,
    table: &SharedTable<L, M>,
    out: &mut OutSeat<L>,
    inn: &mut InSeat<M>,
    entry: &Entry,
) -> Result<(), Fail>
    requires here { IsAt L.parts table.now out.old × IsAt M.parts table.now inn.old }
    requires few { (length out.old.noted < 2 ^ 32) × (length inn.old.noted < 2 ^ 32) }
    ensures here { IsAt L.parts table.now out.new × IsAt M.parts table.now inn.new }
    ensures few { OnOk result ((length out.new.noted ≤ length out.old.noted + 1) × (length inn.new.noted ≤ length inn.old.noted + 1)) }
{
    let reply = match entry.call {
        TableCall::Out(call) => table.call_out(rt, out, call)?,
        TableCall::In(call) => table.call_in(rt, inn, call)?,
    };
    assert!(rt; reply == entry.reply);
    Ok(())
}

// An entry as its caller keeps it.
fn noted(entry: &Entry) -> Noted {
    Noted {
        call: entry.call,
        reply: entry.reply,
    }
}

#[test]
fn the_first_call_that_differs_is_told(rt: HostRuntime) {
    let kept = out!(OutCall::Dial(AT_3002), TableReply::Unmet);
    let found = out!(OutCall::Dial(AT_3002), TableReply::Made(FIRST));
    let torn = first_torn(
        &[inn!(InCall::DropIn(FIRST), TableReply::Unmet), found],
        &[noted(&kept)],
        &[Noted {
            call: TableCall::In(InCall::DropIn(FIRST)),
            reply: TableReply::Unmet,
        }],
    );
    let wanted = Torn {
        who: Who::Out,
        place: 1,
        kept: noted(&kept),
        found: noted(&found),
    };
    assert!(rt; torn == Some(wanted));
}

// A gate that sets a flag when it is asked for one call, and opens another call only once another flag is set.
#[derive(Drop)]
struct FlagGate<'a> {
    sets: &'a AtomicBool,
    at: u64,
    waits: &'a AtomicBool,
    held: u64,
    noes: u64,
}

impl<'a> Gate for FlagGate<'a> {
    ghost use Rattle.std.specs.Prelude.{◌==◌, if◌then◌else◌};

    ghost noes = { λ g n. if n == g.held then g.noes else 0 };

    fn ready(&mut self, index: u64) -> bool {
        if index == self.at {
            self.sets.store(true, Ordering::SeqCst);
        }
        if index != self.held || self.waits.load(Ordering::SeqCst) {
            return true;
        }
        self.noes = self.noes.saturating_add(1);
        if self.noes % 16_384 == 0 {
            thread::yield_now();
        }
        false
    }
}

#[test]
fn two_governors_at_once(rt: HostRuntime) -> Result<(), Fail> {
    for _ in 0..10 {
        at_once::<Brand, Brand, _>(&rt, rt.alloc(), Blank::new(1), Blank::new(1))?;
    }
    Ok(())
}

fn at_once<L: Ledger + Send + Sync, M: Ledger + Send + Sync, R: Threads + Wait + Abort + Sync>(
    rt: &R,
    alloc: Global,
    outs: Blank,
    ins: Blank,
) -> Result<(), Fail>
    requires outs { (outs.name ≡ L.name) × (outs.parts ≡ L.parts) × (0 < L.parts) }
    requires ins { (ins.name ≡ M.name) × (ins.parts ≡ M.parts) × (0 < M.parts) }
{
    let out_calls = [OutCall::Dial(AT_3002), OutCall::Acquire(AT_3003)];
    let out_calls = OutCallList::from_slice(alloc, &out_calls)?;
    let in_calls = [InCall::Admit(AT_3003, 0), InCall::DropIn(Cid(9))];
    let in_calls = InCallList::from_slice(alloc, &in_calls)?;
    let (table, out, inn) = opened::<L, M>(alloc, &settings(), outs, ins)?;
    let (out, inn) = worked(rt, &table, out, &out_calls, inn, &in_calls);
    let gathered = gather(rt, table, out, inn)?;
    assert!(rt; gathered.made_out == 2 && gathered.made_in == 2);
    Ok(())
}

// Each worker waits for the other one, so they end only where they run at once.
fn worked<L: Ledger + Send + Sync, M: Ledger + Send + Sync, R: Threads + Wait + Abort + Sync>(
    rt: &R,
    table: &SharedTable<L, M>,
    out: OutSeat<L>,
    outs: &OutCallList,
    inn: InSeat<M>,
    ins: &InCallList,
) -> (OutSeat<L>, InSeat<M>)
    requires out { IsAt L.parts table.now out × (length out.noted + length outs.now ≤ 2 ^ 32) }
    requires inn { IsAt M.parts table.now inn × (length inn.noted + length ins.now ≤ 2 ^ 32) }
    ensures { IsAt L.parts table.now result.0 × IsAt M.parts table.now result.1 }
{
    let (out_asked, in_asked) = (AtomicBool::new(false), AtomicBool::new(false));
    let out_gate = FlagGate {
        sets: &out_asked,
        at: 2,
        waits: &in_asked,
        held: 1,
        noes: 0,
    };
    let in_gate = FlagGate {
        sets: &in_asked,
        at: 1,
        waits: &out_asked,
        held: 2,
        noes: 0,
    };
    let worked = run_two(rt, table, out, outs, inn, ins, out_gate, in_gate);
    assert!(rt; worked.out_end == WorkEnd::All && worked.in_end == WorkEnd::All);
    (worked.out, worked.inn)
}
