// What each call asks of a table.
ghost use Rattle.std.specs.Prelude.{◌≡◌};
ghost use Rattle.conn_state.specs.Protocols.{has_responder};
ghost use Rattle.conn_state.specs.Use.{is_dialing, runs};
ghost use Rattle.conn_table.specs.Answers.{is_due};
ghost use Rattle.shared_table.specs.Calls.{is_met, out_is_met, in_is_met, is_moment, may_give, may_let_in, may_dial, stands_with, is_greeting_in, is_greeting_out, is_used, may_awake};

use crate::{InCall, OutCall, TableCall};
use conn_state::facts::{is_dialing, is_greeting, is_negotiated, is_outbound, serves_remote};
use conn_state::responders::runs;
use conn_table::ConnTable;
use net_base::protocol::{BLOCK_FETCH, CHAIN_SYNC, KEEP_ALIVE, PEER_SHARING, TX_SUBMISSION};
use net_base::{Addr, Facts, Grace, NUMBER_MOST};

pub fn is_met(call: TableCall, table: &ConnTable) -> bool
    ensures { result ≡ is_met call table.now }
{
    match call {
        TableCall::Out(call) => out_is_met(call, table),
        TableCall::In(call) => in_is_met(call, table),
    }
}

fn out_is_met(call: OutCall, table: &ConnTable) -> bool
    ensures { result ≡ out_is_met call table.now }
{
    match call {
        OutCall::Dial(addr) => may_dial(addr, table),
        OutCall::Connected(cid, now) => {
            is_moment(now) && table.facts(cid).is_some_and(|facts| is_dialing(&facts))
        }
        OutCall::Agreed(cid, _, now) => {
            is_moment(now)
                && table
                    .facts(cid)
                    .is_some_and(|facts| is_greeting_out(&facts))
        }
        OutCall::Acquire(_) => true,
        OutCall::Release(cid, now) => {
            is_moment(now) && table.facts(cid).is_some_and(|facts| facts.local)
        }
        OutCall::DropOut(cid) => table.facts(cid).is_some(),
    }
}

fn in_is_met(call: InCall, table: &ConnTable) -> bool
    ensures { result ≡ in_is_met call table.now }
{
    match call {
        InCall::Admit(addr, now) => is_moment(now) && may_let_in(addr, table),
        InCall::Agreed(cid, _, now) => {
            is_moment(now) && table.facts(cid).is_some_and(|facts| is_greeting_in(&facts))
        }
        InCall::Awake(cid, protocol) => {
            table
                .facts(cid)
                .is_some_and(|facts| may_awake(protocol, &facts))
        }
        InCall::Idle(cid, protocol, now) => {
            is_moment(now)
                && table
                    .facts(cid)
                    .is_some_and(|facts| runs(protocol, facts.running))
        }
        InCall::GraceOver(cid, now) => {
            is_moment(now)
                && table
                    .facts(cid)
                    .is_some_and(|facts| is_due(now, facts.grace))
        }
        InCall::DropIn(cid) => table.facts(cid).is_some(),
    }
}

fn is_moment(now: u64) -> bool
    ensures { result ≡ is_moment now }
{
    now <= NUMBER_MOST
}

fn may_dial(addr: Addr, table: &ConnTable) -> bool
    ensures { result ≡ may_dial addr table.now }
{
    table.given() < NUMBER_MOST && !table.any_of(addr)
}

fn may_let_in(addr: Addr, table: &ConnTable) -> bool
    ensures { result ≡ may_let_in addr table.now }
{
    table.given() < NUMBER_MOST
        && table.counted() < table.settings().hard
        && table.live_of(addr).is_none()
}

fn is_greeting_out(facts: &Facts) -> bool
    ensures { result ≡ is_greeting_out facts.now }
{
    is_greeting(facts) && is_outbound(facts)
}

fn is_greeting_in(facts: &Facts) -> bool
    ensures { result ≡ is_greeting_in facts.now }
{
    is_greeting(facts) && !is_outbound(facts)
}

fn may_awake(protocol: u16, facts: &Facts) -> bool
    ensures { result ≡ may_awake protocol facts.now }
{
    has_responder(protocol)
        && is_negotiated(facts)
        && serves_remote(facts)
        && !runs(protocol, facts.running)
}

// Whether the other side may run a mini-protocol at all.
fn has_responder(protocol: u16) -> bool
    ensures { result ≡ has_responder protocol }
{
    matches!(
        protocol,
        CHAIN_SYNC | BLOCK_FETCH | TX_SUBMISSION | KEEP_ALIVE | PEER_SHARING
    )
}

fn is_due(now: u64, grace: Grace) -> bool
    ensures { result ≡ is_due now grace }
{
    match grace {
        Grace::Off => false,
        Grace::ForRemote(until) | Grace::ForLocal(until) => until <= now,
    }
}
