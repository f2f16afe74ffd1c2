use super::plain::PlainTable;
use super::plain::calls::plainly;
use super::{AT_3002, AT_3003, AT_3004, BOTH_WAYS, NONE_RUNNING, local, next_word, settings};
use conn_table::{ConnTable, Placed, PlacedList};
use net_base::{Addr, Agreed, Cid, Facts, Grace, Phase, Provenance, Settings, StateName};
use shared_table::{InCall, OutCall, Shared, TableCall, TableReply};
use std::process::Abort;
use std::test::Fail;

// A call on a table, or what is to be seen of it.
#[derive(Clone, Copy)]
enum Step {
    Asks(TableCall, TableReply),
    Given(u64),
    Counted(u64),
    // of all connections it stands behind so many others
    Last(usize, Facts),
    Knows(Cid, Option<Facts>),
    Live(Addr, Option<Cid>),
    Any(Addr, bool),
    // alone in the index
    Indexed(Placed),
    Hard(u64),
}

const ONE: Cid = Cid(1);

const TWO: Cid = Cid(2);

const FIRST: Facts = Facts {
    cid: ONE,
    addr: AT_3002,
    provenance: Provenance::FromRemote,
    phase: Phase::Greeting(10_000),
    agreed: None,
    local: false,
    running: NONE_RUNNING,
    grace: Grace::Off,
};

const SECOND: Facts = Facts {
    cid: TWO,
    addr: AT_3003,
    phase: Phase::Greeting(10_007),
    ..FIRST
};

const ADMITTED: [Step; 16] = [
    Step::Given(0),
    Step::Knows(ONE, None),
    Step::Asks(
        TableCall::In(InCall::Admit(AT_3002, 0)),
        TableReply::Made(ONE),
    ),
    Step::Asks(
        TableCall::In(InCall::Admit(AT_3003, 7)),
        TableReply::Made(TWO),
    ),
    Step::Given(2),
    Step::Counted(2),
    Step::Last(1, SECOND),
    Step::Knows(ONE, Some(FIRST)),
    Step::Live(AT_3003, Some(TWO)),
    Step::Live(AT_3004, None),
    Step::Asks(TableCall::In(InCall::DropIn(ONE)), TableReply::Done),
    Step::Knows(ONE, None),
    Step::Live(AT_3002, None),
    Step::Counted(1),
    Step::Asks(
        TableCall::In(InCall::Admit(AT_3002, 9)),
        TableReply::Made(Cid(3)),
    ),
    Step::Hard(512),
];

const DIALED: [Step; 10] = [
    Step::Any(AT_3002, false),
    Step::Asks(
        TableCall::Out(OutCall::Dial(AT_3002)),
        TableReply::Made(ONE),
    ),
    Step::Indexed(Placed {
        addr: AT_3002,
        cid: ONE,
    }),
    Step::Any(AT_3002, true),
    Step::Asks(
        TableCall::Out(OutCall::Acquire(AT_3002)),
        TableReply::NotReusable(StateName::ReservedOutbound),
    ),
    Step::Asks(TableCall::Out(OutCall::Connected(ONE, 7)), TableReply::Done),
    Step::Asks(
        TableCall::Out(OutCall::Acquire(AT_3002)),
        TableReply::NotReusable(StateName::UnnegotiatedOutbound),
    ),
    Step::Asks(
        TableCall::Out(OutCall::Agreed(ONE, BOTH_WAYS, 10)),
        TableReply::Leased(ONE),
    ),
    Step::Asks(
        TableCall::Out(OutCall::Acquire(AT_3002)),
        TableReply::NotReusable(StateName::OutboundDupTicking),
    ),
    Step::Counted(0),
];

// A call is answered so.
pub(super) fn answers(
    rt: &impl Abort,
    shared: &mut Shared,
    call: TableCall,
    reply: TableReply,
) -> Result<(), Fail> {
    assert!(rt; shared.apply(call)? == reply);
    Ok(())
}

fn take(rt: &impl Abort, shared: &mut Shared, step: Step) -> Result<(), Fail> {
    match step {
        Step::Asks(call, reply) => answers(rt, shared, call, reply)?,
        _ => assert!(rt; is_seen(shared.table(), step)),
    }
    Ok(())
}

fn is_seen(table: &ConnTable, step: Step) -> bool {
    match step {
        Step::Asks(..) => false,
        Step::Given(given) => table.given() == given,
        Step::Counted(counted) => table.counted() == counted,
        Step::Last(place, facts) => is_last(table, place, &facts),
        Step::Knows(cid, facts) => table.facts(cid) == facts,
        Step::Live(addr, cid) => table.live_of(addr) == cid,
        Step::Any(addr, any) => table.any_of(addr) == any,
        Step::Indexed(placed) => is_alone(table.index(), &placed),
        Step::Hard(hard) => table.settings().hard == hard,
    }
}

fn is_last(table: &ConnTable, place: usize, facts: &Facts) -> bool {
    place < table.len() && table.len() == place + 1 && table.at(place) == *facts
}

fn is_alone(index: &PlacedList, placed: &Placed) -> bool {
    index.len() == 1 && index.at(0) == *placed
}

fn take_all(rt: &impl Abort, shared: &mut Shared, steps: &[Step]) -> Result<(), Fail> {
    for step in steps {
        take(rt, shared, *step)?;
    }
    Ok(())
}

#[test]
fn admits_finds_and_drops(rt: HostRuntime) -> Result<(), Fail> {
    let mut shared = Shared::new(rt.alloc(), &settings());
    take_all(&rt, &mut shared, &ADMITTED)
}

#[test]
fn the_life_of_a_dialed_connection(rt: HostRuntime) -> Result<(), Fail> {
    let mut shared = Shared::new(rt.alloc(), &settings());
    take_all(&rt, &mut shared, &DIALED)
}

#[test]
fn a_lease_names_its_connection(rt: HostRuntime) -> Result<(), Fail> {
    let mut table = ConnTable::new(rt.alloc(), &settings());
    let cid = table.dial(AT_3002)?;
    table.connected(cid, 7);
    let Some(lease) = table.negotiated(cid, BOTH_WAYS, 10) else {
        return Err(Fail::from("no lease"));
    };
    assert!(rt; lease.cid() == cid);
    Ok(())
}

#[test]
fn the_table_agrees_with_a_plain_list(rt: HostRuntime) -> Result<(), Fail> {
    let mut shared = Shared::new(rt.alloc(), &settings());
    let mut plain = PlainTable::new(rt.alloc(), &plain_settings());
    let mut leases = Vec::new(rt.alloc());
    they_agree(&rt, &mut shared, &mut plain, &mut leases)
}

// The waits by their lengths.
fn plain_settings() -> Settings {
    Settings {
        hard: 512,
        handshake: 10_000,
        idle: 5000,
        timewait: 60_000,
        ..settings()
    }
}

fn they_agree(
    rt: &impl Abort,
    shared: &mut Shared,
    plain: &mut PlainTable,
    leases: &mut Vec<Cid>,
) -> Result<(), Fail> {
    let mut word = 1;
    for turn in 0..1000u64 {
        word = next_word(word);
        let call = call_of(word / 2_147_483_648, plain, leases, turn * 400);
        both_answer(rt, shared, plain, leases, call)?;
        assert!(rt; is_same(shared.table(), plain), "at turn {turn}");
    }
    assert!(rt; shared.table().given() >= 40);
    Ok(())
}

fn both_answer(
    rt: &impl Abort,
    shared: &mut Shared,
    plain: &mut PlainTable,
    leases: &mut Vec<Cid>,
    call: TableCall,
) -> Result<(), Fail> {
    let reply = plainly(plain, call)?;
    answers(rt, shared, call, reply)?;
    if let TableReply::Leased(cid) = reply {
        leases.push(cid)?;
    }
    Ok(())
}

// A number chooses the call, and the connection or the lease.
fn call_of(number: u64, plain: &PlainTable, leases: &mut Vec<Cid>, now: u64) -> TableCall {
    let choice = number / 20;
    let addr = local(3002 + (choice % 5) as u16);
    let cid = chosen(plain, choice);
    match number % 20 {
        0 | 1 => TableCall::In(InCall::Admit(addr, now)),
        2 | 3 | 4 => TableCall::Out(OutCall::Dial(addr)),
        5 | 6 => TableCall::Out(OutCall::Connected(cid, now)),
        7 | 8 => agreed(plain, cid, choice % 4 == 0, now),
        9 | 10 => TableCall::Out(OutCall::Acquire(addr)),
        11 | 12 | 13 => TableCall::Out(OutCall::Release(chosen_lease(leases, choice), now)),
        14 | 15 => TableCall::In(InCall::Awake(cid, 8)),
        16 => TableCall::In(InCall::Idle(cid, 8, now)),
        17 => TableCall::In(InCall::GraceOver(cid, now)),
        18 => TableCall::In(InCall::DropIn(where_unused(plain, cid))),
        _ => TableCall::Out(OutCall::DropOut(chosen_lease(leases, choice))),
    }
}

// No connection has this id.
const NONE: Cid = Cid(0);

fn chosen(plain: &PlainTable, choice: u64) -> Cid {
    let len = plain.facts.len();
    if len == 0 {
        return NONE;
    }
    plain.facts[choice as usize % len].cid
}

fn chosen_lease(leases: &mut Vec<Cid>, choice: u64) -> Cid {
    let len = leases.len();
    if len == 0 {
        return NONE;
    }
    leases.remove(choice as usize % len)
}

// The governor of whoever dialed is told.
fn agreed(plain: &PlainTable, cid: Cid, initiator_only: bool, now: u64) -> TableCall {
    let agreed = Agreed {
        initiator_only,
        ..BOTH_WAYS
    };
    match plain.facts(cid) {
        Some(facts) if facts.provenance == Provenance::FromLocal => {
            TableCall::Out(OutCall::Agreed(cid, agreed, now))
        }
        _ => TableCall::In(InCall::Agreed(cid, agreed, now)),
    }
}

fn where_unused(plain: &PlainTable, cid: Cid) -> Cid {
    match plain.facts(cid) {
        Some(facts) if !facts.local => cid,
        _ => NONE,
    }
}

fn is_same(table: &ConnTable, plain: &PlainTable) -> bool {
    same_facts(table, plain) && same_look_ups(table, plain) && is_index_right(table)
}

pub(super) fn same_facts(table: &ConnTable, plain: &PlainTable) -> bool {
    let len = table.len();
    for place in 0..len {
        if plain.facts.get(place) != Some(&table.at(place)) {
            return false;
        }
    }
    len == plain.facts.len() && table.given() == plain.given && table.counted() == plain.counted()
}

fn same_look_ups(table: &ConnTable, plain: &PlainTable) -> bool {
    for port in 3001..3008 {
        let addr = local(port);
        if table.live_of(addr) != plain.live_of(addr) || table.any_of(addr) != plain.any_of(addr) {
            return false;
        }
    }
    true
}

// Whether there is such a connection, of that address.
fn is_known(table: &ConnTable, placed: &Placed) -> bool {
    match table.facts(placed.cid) {
        Some(facts) => facts.addr == placed.addr,
        None => false,
    }
}

// Each is above the one before, and as many stand there as there are connections, each of its address.
fn is_index_right(table: &ConnTable) -> bool {
    let index = table.index();
    let mut before = None;
    for place in 0..index.len() {
        let placed = index.at(place);
        if !is_known(table, &placed) || matches!(before, Some(before) if before >= placed) {
            return false;
        }
        before = Some(placed);
    }
    index.len() == table.len()
}
