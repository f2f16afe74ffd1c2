ghost use Rattle.std.specs.Prelude.{◌≡◌, ◌+◌, ◌<◌, ◌≤◌, ◌^◌, ℕ, false, length, map, IfSome, IfNone};
ghost use Rattle.shared_table.specs.Ends.{Ended, KeptShut, MadeOne, OnHeld, StopsAt};
ghost use Rattle.shared_table.specs.Seats.{IsAt};
ghost use Rattle.shared_table.specs.declared.call.TableCall.TheVariants as made;

use crate::{
    Gate, InCall, InCallList, InSeat, OutCall, OutCallList, OutSeat, SharedTable, WorkEnd,
};
use std::sync::Wait;
use std::sync::ledger::Ledger;
use std::thread::{Threads, join};

// How often a worker asks its gate before a call.
const MOST_ASKS: u64 = 10_000_000;

/// What two workers give back.
#[derive(Drop)]
pub struct Worked<L: Ledger, M: Ledger, G, H> {
    pub out: OutSeat<L>,
    pub inn: InSeat<M>,
    pub out_end: WorkEnd,
    pub in_end: WorkEnd,
    pub out_gate: G,
    pub in_gate: H,
}

// What one worker gives back.
#[derive(Drop)]
struct Ran<S, G> {
    seat: S,
    end: WorkEnd,
    gate: G,
}

/// Lets both governors make their calls, each in a thread of its own. Before each call the worker asks its gate until it
/// hears yes, at most ten million times. Where no thread can be started, the calls of one come after those of the other.
pub fn run_two<
    L: Ledger + Send + Sync,
    M: Ledger + Send + Sync,
    G: Gate,
    H: Gate,
    R: Threads + Wait + Sync,
>(
    rt: &R,
    table: &SharedTable<L, M>,
    out: OutSeat<L>,
    outs: &OutCallList,
    inn: InSeat<M>,
    ins: &InCallList,
    out_gate: G,
    in_gate: H,
) -> Worked<L, M, G, H>
    requires out { IsAt L.parts table.now out × (length out.noted + length outs.now ≤ 2 ^ 32) }
    requires inn { IsAt M.parts table.now inn × (length inn.noted + length ins.now ≤ 2 ^ 32) }
    ensures out_here { IsAt L.parts table.now result.out }
    ensures in_here { IsAt M.parts table.now result.inn }
    ensures out_end { Ended result.out_end (map (λ call. made.Out call) outs.now) out.noted result.out.noted }
    ensures in_end { Ended result.in_end (map (λ call. made.In call) ins.now) inn.noted result.inn.noted }
    ensures out_held { OnHeld result.out_end (G.noes out_gate) (G.noes result.out_gate) }
    ensures in_held { OnHeld result.in_end (H.noes in_gate) (H.noes result.in_gate) }
{
    let outbound = move || -> Ran<OutSeat<L>, G>
        requires { IsAt L.parts table.now out × (length out.noted + length outs.now ≤ 2 ^ 32) }
    { work_out(rt, table, out, outs, out_gate) };
    let inbound = move || -> Ran<InSeat<M>, H>
        requires { IsAt M.parts table.now inn × (length inn.noted + length ins.now ≤ 2 ^ 32) }
    { work_in(rt, table, inn, ins, in_gate) };
    let (outbound, inbound) = join(rt, outbound, inbound);
    Worked {
        out: outbound.seat,
        inn: inbound.seat,
        out_end: outbound.end,
        in_end: inbound.end,
        out_gate: outbound.gate,
        in_gate: inbound.gate,
    }
}

// Makes the calls of the outbound governor, up to the first at which it has to stop.
fn work_out<L: Ledger, M: Ledger, G: Gate, R: Wait>(
    rt: &R,
    table: &SharedTable<L, M>,
    seat: OutSeat<L>,
    calls: &OutCallList,
    gate: G,
) -> Ran<OutSeat<L>, G>
    requires here { IsAt L.parts table.now seat }
    requires few { length seat.noted + length calls.now ≤ 2 ^ 32 }
    ensures here { IsAt L.parts table.now result.seat }
    ensures end { Ended result.end (map (λ call. made.Out call) calls.now) seat.noted result.seat.noted }
    ensures held { OnHeld result.end (G.noes gate) (G.noes result.gate) }
{
    let mut seat = seat;
    let mut gate = gate;
    for (place, call) in calls.as_slice().iter().enumerate() {
        let index = place as u64 + 1;
        if let Some(end) = step_out(rt, table, &mut seat, *call, &mut gate, index) {
            return Ran { seat, end, gate };
        }
    }
    Ran {
        seat,
        end: WorkEnd::All,
        gate,
    }
}

// Makes one call once the gate is open. Where it has to stop, says how.
fn step_out<L: Ledger, M: Ledger, G: Gate, R: Wait>(
    rt: &R,
    table: &SharedTable<L, M>,
    seat: &mut OutSeat<L>,
    call: OutCall,
    gate: &mut G,
    index: u64,
) -> Option<WorkEnd>
    requires here { IsAt L.parts table.now seat.old }
    requires few { length seat.old.noted < 2 ^ 32 }
    ensures here { IsAt L.parts table.now seat.new }
    ensures made { IfNone result (MadeOne (made.Out call) seat.old.noted seat.new.noted) }
    ensures stopped { IfSome result (λ end. StopsAt index end × (seat.new.noted ≡ seat.old.noted)) }
    ensures held { IfSome result (λ end. OnHeld end (G.noes gate.old) (G.noes gate.new)) }
    ensures later { (n : ℕ) → G.noes gate.old n ≤ G.noes gate.new n }
{
    if !opens(gate, index) {
        return Some(WorkEnd::Held { index });
    }
    match table.call_out(rt, seat, call) {
        Ok(_) => None,
        Err(_) => Some(WorkEnd::OutOfMemory { index }),
    }
}

// Makes the calls of the inbound governor, up to the first at which it has to stop.
fn work_in<L: Ledger, M: Ledger, H: Gate, R: Wait>(
    rt: &R,
    table: &SharedTable<L, M>,
    seat: InSeat<M>,
    calls: &InCallList,
    gate: H,
) -> Ran<InSeat<M>, H>
    requires here { IsAt M.parts table.now seat }
    requires few { length seat.noted + length calls.now ≤ 2 ^ 32 }
    ensures here { IsAt M.parts table.now result.seat }
    ensures end { Ended result.end (map (λ call. made.In call) calls.now) seat.noted result.seat.noted }
    ensures held { OnHeld result.end (H.noes gate) (H.noes result.gate) }
{
    let mut seat = seat;
    let mut gate = gate;
    for (place, call) in calls.as_slice().iter().enumerate() {
        let index = place as u64 + 1;
        if let Some(end) = step_in(rt, table, &mut seat, *call, &mut gate, index) {
            return Ran { seat, end, gate };
        }
    }
    Ran {
        seat,
        end: WorkEnd::All,
        gate,
    }
}

// Makes one call once the gate is open. Where it has to stop, says how.
fn step_in<L: Ledger, M: Ledger, H: Gate, R: Wait>(
    rt: &R,
    table: &SharedTable<L, M>,
    seat: &mut InSeat<M>,
    call: InCall,
    gate: &mut H,
    index: u64,
) -> Option<WorkEnd>
    requires here { IsAt M.parts table.now seat.old }
    requires few { length seat.old.noted < 2 ^ 32 }
    ensures here { IsAt M.parts table.now seat.new }
    ensures made { IfNone result (MadeOne (made.In call) seat.old.noted seat.new.noted) }
    ensures stopped { IfSome result (λ end. StopsAt index end × (seat.new.noted ≡ seat.old.noted)) }
    ensures held { IfSome result (λ end. OnHeld end (H.noes gate.old) (H.noes gate.new)) }
    ensures later { (n : ℕ) → H.noes gate.old n ≤ H.noes gate.new n }
{
    if !opens(gate, index) {
        return Some(WorkEnd::Held { index });
    }
    match table.call_in(rt, seat, call) {
        Ok(_) => None,
        Err(_) => Some(WorkEnd::OutOfMemory { index }),
    }
}

// Asks a gate until it says yes, or as often as a worker asks.
fn opens<G: Gate>(gate: &mut G, index: u64) -> bool
    ensures later { (n : ℕ) → G.noes gate.old n ≤ G.noes gate.new n }
    ensures shut { result ≡ false → KeptShut (G.noes gate.old index) (G.noes gate.new index) }
{
    for _ in 0..MOST_ASKS {
        if gate.ready(index) {
            return true;
        }
    }
    false
}
