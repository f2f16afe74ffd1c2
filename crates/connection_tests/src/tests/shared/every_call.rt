// All twelve calls through the seats, beside a plain table, with settings none of which is the usual one.
ghost use Rattle.std.specs.Prelude.{◌≡◌};
ghost use Rattle.net_base.specs.Bounds.{AreSound};

use super::super::plain::PlainTable;
use super::super::plain::calls::plainly;
use super::super::table::same_facts;
use super::super::{AT_3002, AT_3003, AT_3004, AT_3005, AT_3006, BOTH_WAYS, local};
use super::{FIRST, gathered};
use conn_table::{ConnTable, GraceEnd};
use net_base::{Cid, Settings, StateName};
use shared_table::{Entry, Gathered, InCall, OutCall, TableCall, TableReply, Who};
use std::process::Abort;
use std::test::Fail;

const SECOND: Cid = Cid(2);

fn unusual() -> Settings
    ensures { AreSound result }
{
    Settings {
        version: 1,
        own: local(3000),
        magic: 7,
        initiator_only: 1,
        sharing: 0,
        hard: 2,
        soft: 1,
        delay: 4000,
        idle: 7000,
        timewait: 50_000,
        handshake: 9000,
        reply: 8000,
        backoff: 6000,
        sharegap: 800_000,
        shares: 3,
    }
}

// Calls of every kind, with the replies that they have by these settings: a grace is 7,000 long, and two connections count at
// most.
const EVERY_CALL: [Entry; 24] = [
    out!(OutCall::Dial(AT_3002), TableReply::Made(FIRST)),
    out!(OutCall::Dial(AT_3002), TableReply::Unmet),
    out!(OutCall::Connected(FIRST, 10), TableReply::Done),
    inn!(InCall::Agreed(FIRST, BOTH_WAYS, 20), TableReply::Unmet),
    out!(
        OutCall::Agreed(FIRST, BOTH_WAYS, 20),
        TableReply::Leased(FIRST)
    ),
    inn!(InCall::Awake(FIRST, 8), TableReply::Done),
    inn!(InCall::Awake(FIRST, 8), TableReply::Unmet),
    inn!(InCall::Idle(FIRST, 8, 30), TableReply::Done),
    inn!(InCall::GraceOver(FIRST, 7029), TableReply::Unmet),
    inn!(
        InCall::GraceOver(FIRST, 7030),
        TableReply::Grace(GraceEnd::Expired)
    ),
    out!(OutCall::Release(FIRST, 7040), TableReply::Done),
    out!(OutCall::Release(FIRST, 7040), TableReply::Unmet),
    inn!(
        InCall::GraceOver(FIRST, 14_040),
        TableReply::Grace(GraceEnd::Closing)
    ),
    inn!(InCall::Admit(AT_3003, 15_000), TableReply::Made(SECOND)),
    inn!(InCall::Agreed(SECOND, BOTH_WAYS, 15_010), TableReply::Done),
    out!(OutCall::Acquire(AT_3003), TableReply::Leased(SECOND)),
    inn!(InCall::Admit(AT_3004, 15_020), TableReply::Made(Cid(3))),
    inn!(InCall::Admit(AT_3005, 15_030), TableReply::Made(Cid(4))),
    inn!(InCall::Admit(AT_3006, 15_040), TableReply::Unmet),
    out!(
        OutCall::Acquire(AT_3005),
        TableReply::NotReusable(StateName::UnnegotiatedInbound)
    ),
    inn!(InCall::DropIn(Cid(3)), TableReply::Done),
    inn!(InCall::DropIn(Cid(3)), TableReply::Unmet),
    out!(OutCall::DropOut(SECOND), TableReply::Done),
    out!(OutCall::Acquire(AT_3003), TableReply::NoSuch),
];

fn are_answered_plainly(rt: &impl Abort, plain: &mut PlainTable) -> Result<(), Fail> {
    for entry in &EVERY_CALL {
        assert!(rt; plainly(plain, entry.call)? == entry.reply);
    }
    Ok(())
}

fn is_that_of(rt: &impl Abort, table: &ConnTable, plain: &PlainTable) {
    assert!(rt; *table.settings() == plain.settings);
    assert!(rt; same_facts(table, plain));
}

fn is_every_call(rt: &impl Abort, gathered: &Gathered, plain: &PlainTable) {
    assert!(rt; gathered.history.as_slice() == EVERY_CALL.as_slice());
    is_that_of(rt, &gathered.table, plain);
}

#[test]
fn every_call_through_a_seat_is_that_of_a_plain_table(rt: HostRuntime) -> Result<(), Fail> {
    let settings = unusual();
    let mut plain = PlainTable::new(rt.alloc(), &settings);
    are_answered_plainly(&rt, &mut plain)?;
    let gathered = gathered(&rt, rt.alloc(), &settings, &EVERY_CALL)?;
    is_every_call(&rt, &gathered, &plain);
    Ok(())
}
