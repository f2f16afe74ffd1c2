// What each call comes to, on a plain table.
use super::super::NONE_RUNNING;
use super::{PlainTable, some_runs};
use conn_state::names::name_of;
use conn_table::GraceEnd;
use net_base::{
    Addr, Agreed, Cid, Facts, Grace, OutOfMemory, Phase, Provenance, Responders, Settings,
};
use shared_table::{InCall, OutCall, TableCall, TableReply};

pub fn plainly(plain: &mut PlainTable, call: TableCall) -> Result<TableReply, OutOfMemory> {
    match call {
        TableCall::Out(OutCall::Dial(addr)) => dial(plain, addr),
        TableCall::In(InCall::Admit(addr, now)) => admit(plain, addr, now),
        TableCall::Out(OutCall::Acquire(addr)) => Ok(acquire(plain, addr)),
        TableCall::Out(OutCall::DropOut(cid)) | TableCall::In(InCall::DropIn(cid)) => {
            Ok(drop_conn(plain, cid))
        }
        _ => Ok(turn(plain, call)),
    }
}

fn dial(plain: &mut PlainTable, addr: Addr) -> Result<TableReply, OutOfMemory> {
    if plain.any_of(addr) {
        return Ok(TableReply::Unmet);
    }
    let cid = plain.enter(addr, Provenance::FromLocal, Phase::Dialing)?;
    Ok(TableReply::Made(cid))
}

fn admit(plain: &mut PlainTable, addr: Addr, now: u64) -> Result<TableReply, OutOfMemory> {
    if plain.live_of(addr).is_some() || plain.counted() >= plain.settings.hard {
        return Ok(TableReply::Unmet);
    }
    let phase = Phase::Greeting(now.saturating_add(plain.settings.handshake));
    let cid = plain.enter(addr, Provenance::FromRemote, phase)?;
    Ok(TableReply::Made(cid))
}

fn acquire(plain: &mut PlainTable, addr: Addr) -> TableReply {
    let Some(facts) = plain.live_facts(addr) else {
        return TableReply::NoSuch;
    };
    if !is_acquirable(&facts) {
        return TableReply::NotReusable(name_of(&facts));
    }
    plain.replace(Facts {
        local: true,
        ..facts
    });
    TableReply::Leased(facts.cid)
}

fn drop_conn(plain: &mut PlainTable, cid: Cid) -> TableReply {
    if plain.facts(cid).is_none() {
        return TableReply::Unmet;
    }
    plain.drop_conn(cid);
    TableReply::Done
}

// A connection turns to other facts, where the call may be made.
fn turn(plain: &mut PlainTable, call: TableCall) -> TableReply {
    let Some(facts) = plain.facts(cid_of(call)) else {
        return TableReply::Unmet;
    };
    let (new, reply) = match call {
        TableCall::Out(call) => turn_out(&plain.settings, facts, call),
        TableCall::In(call) => turn_in(&plain.settings, facts, call),
    };
    plain.replace(new);
    reply
}

fn cid_of(call: TableCall) -> Cid {
    match call {
        TableCall::Out(
            OutCall::Connected(cid, _) | OutCall::Agreed(cid, ..) | OutCall::Release(cid, _),
        )
        | TableCall::In(
            InCall::Agreed(cid, ..)
            | InCall::Awake(cid, _)
            | InCall::Idle(cid, ..)
            | InCall::GraceOver(cid, _),
        ) => cid,
        _ => Cid(0),
    }
}

fn turn_out(settings: &Settings, facts: Facts, call: OutCall) -> (Facts, TableReply) {
    match call {
        OutCall::Connected(_, now) if facts.phase == Phase::Dialing => {
            (
                connected(facts, now.saturating_add(settings.handshake)),
                TableReply::Done,
            )
        }
        OutCall::Agreed(cid, agreed, now) if is_greeting(&facts) && is_dialed(&facts) => (
            negotiated(facts, agreed, now.saturating_add(settings.idle)),
            TableReply::Leased(cid),
        ),
        OutCall::Release(_, now) if facts.local => {
            (
                released(facts, now.saturating_add(settings.idle)),
                TableReply::Done,
            )
        }
        _ => (facts, TableReply::Unmet),
    }
}

fn turn_in(settings: &Settings, facts: Facts, call: InCall) -> (Facts, TableReply) {
    match call {
        InCall::Agreed(_, agreed, now) if is_greeting(&facts) && !is_dialed(&facts) => {
            (
                negotiated(facts, agreed, now.saturating_add(settings.idle)),
                TableReply::Done,
            )
        }
        InCall::Awake(..) if may_awake(&facts) => (awakened(facts), TableReply::Done),
        InCall::Idle(_, _, now) if facts.running.keep_alive => {
            (
                idled(facts, now.saturating_add(settings.idle)),
                TableReply::Done,
            )
        }
        InCall::GraceOver(_, now) if is_due(&facts, now) => (
            grace_ended(facts, now.saturating_add(settings.timewait)),
            TableReply::Grace(grace_end(&facts)),
        ),
        _ => (facts, TableReply::Unmet),
    }
}

fn is_dialed(facts: &Facts) -> bool {
    facts.provenance == Provenance::FromLocal
}

fn is_greeting(facts: &Facts) -> bool {
    matches!(facts.phase, Phase::Greeting(_))
}

fn is_duplex(facts: &Facts) -> bool {
    matches!(facts.agreed, Some(agreed) if !agreed.initiator_only)
}

fn is_acquirable(facts: &Facts) -> bool {
    facts.phase == Phase::Negotiated
        && is_duplex(facts)
        && !facts.local
        && !matches!(facts.grace, Grace::ForLocal(_))
}

fn may_awake(facts: &Facts) -> bool {
    facts.phase == Phase::Negotiated
        && (is_duplex(facts) || !is_dialed(facts))
        && !facts.running.keep_alive
}

fn is_due(facts: &Facts, now: u64) -> bool {
    match facts.grace {
        Grace::Off => false,
        Grace::ForRemote(until) | Grace::ForLocal(until) => until <= now,
    }
}

fn connected(facts: Facts, until: u64) -> Facts {
    Facts {
        phase: Phase::Greeting(until),
        ..facts
    }
}

fn negotiated(facts: Facts, agreed: Agreed, until: u64) -> Facts {
    let outbound = is_dialed(&facts);
    Facts {
        phase: Phase::Negotiated,
        agreed: Some(agreed),
        local: outbound,
        grace: if outbound && agreed.initiator_only {
            Grace::Off
        } else {
            Grace::ForRemote(until)
        },
        ..facts
    }
}

fn released(facts: Facts, until: u64) -> Facts {
    let stays = some_runs(facts.running) || matches!(facts.grace, Grace::ForRemote(_));
    Facts {
        local: false,
        grace: if stays {
            facts.grace
        } else {
            Grace::ForLocal(until)
        },
        ..facts
    }
}

// The keep-alive responder starts.
fn awakened(facts: Facts) -> Facts {
    Facts {
        running: Responders {
            keep_alive: true,
            ..facts.running
        },
        grace: Grace::Off,
        ..facts
    }
}

// The keep-alive responder stops.
fn idled(facts: Facts, until: u64) -> Facts {
    let running = Responders {
        keep_alive: false,
        ..facts.running
    };
    Facts {
        running,
        grace: if some_runs(running) {
            facts.grace
        } else {
            Grace::ForRemote(until)
        },
        ..facts
    }
}

fn grace_end(facts: &Facts) -> GraceEnd {
    if facts.local {
        GraceEnd::Expired
    } else {
        GraceEnd::Closing
    }
}

fn grace_ended(facts: Facts, until: u64) -> Facts {
    if facts.local {
        return Facts {
            grace: Grace::Off,
            ..facts
        };
    }
    Facts {
        phase: Phase::Closing(until),
        agreed: None,
        running: NONE_RUNNING,
        grace: Grace::Off,
        ..facts
    }
}
