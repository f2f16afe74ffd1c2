ghost use Rattle.std.specs.Prelude.{◌≡◌, true, false};
ghost use Rattle.conn_state.specs.Use.{is_duplex, is_outbound, runs};

use super::{AT_3002, BOTH_WAYS, NONE_RUNNING};
use conn_state::facts::{
    is_acquirable, is_counted, is_dialing, is_duplex, is_greeting, is_live, is_negotiated,
    is_outbound, is_pending, is_sharing, serves_remote,
};
use conn_state::names::name_of;
use conn_state::responders::{runs, some_hot_runs, some_runs};
use conn_state::{
    AfterDuplex, AfterInbound, ConnState, Duplex, Inbound, InboundIdle, OutboundDup, OutboundUni,
    Released, ReservedOutbound, Unnegotiated,
};
use net_base::{Agreed, Cid, Facts, Grace, Phase, Provenance, Responders, StateName};
use std::process::Abort;

const ONE_WAY: Agreed = Agreed {
    version: 14,
    initiator_only: true,
    sharing: false,
};

fn reserved() -> ReservedOutbound {
    ReservedOutbound::new(Cid(1), AT_3002)
}

fn dialed() -> Unnegotiated
    ensures { is_outbound result ≡ true }
{
    ReservedOutbound::new(Cid(1), AT_3002).connected(10_000)
}

fn outbound_uni() -> OutboundUni {
    dialed().agreed_uni(ONE_WAY)
}

fn ticking() -> OutboundDup
    ensures { is_duplex result ≡ true }
{
    dialed().agreed_dup(BOTH_WAYS, 5000)
}

fn inbound_idle() -> InboundIdle
    ensures { is_duplex result ≡ true }
{
    Unnegotiated::accepted(Cid(1), AT_3002, 10_000).agreed_in(BOTH_WAYS, 5000)
}

// Chain-sync alone runs.
fn inbound() -> Inbound
    ensures duplex { is_duplex result ≡ true }
    ensures chain_sync { runs 2 result.running ≡ true }
    ensures keep_alive { runs 8 result.running ≡ false }
{
    inbound_idle().awake(2)
}

fn duplex() -> Duplex
    ensures chain_sync { runs 2 result.running ≡ true }
    ensures keep_alive { runs 8 result.running ≡ false }
{
    inbound().acquire()
}

fn released(released: Released) -> ConnState {
    match released {
        Released::ToInboundIdle(state) => ConnState::InboundIdle(state),
        Released::ToOutboundIdle(state) => ConnState::OutboundIdle(state),
    }
}

// The other side starts peer sharing on what is kept for this side.
fn woken() -> Option<Inbound> {
    match ticking().grace_over().release(9000) {
        Released::ToInboundIdle(_) => None,
        Released::ToOutboundIdle(state) => Some(state.awake(10)),
    }
}

fn after_inbound(after: AfterInbound) -> ConnState {
    match after {
        AfterInbound::Still(state) => ConnState::Inbound(state),
        AfterInbound::Quiet(state) => ConnState::InboundIdle(state),
    }
}

fn after_duplex(after: AfterDuplex) -> ConnState {
    match after {
        AfterDuplex::Still(state) => ConnState::Duplex(state),
        AfterDuplex::Quiet(state) => ConnState::OutboundDup(state),
    }
}

// What a connection that this side dialed has gone through.
#[derive(Clone, Copy)]
enum DialedPast {
    Nothing,
    Connected,
    AgreedOneWay,
    ReleasedOneWay,
    ClosedOneWay,
    Agreed,
    Expired,
    Awake,
    ExpiredAwake,
    Released,
    ExpiredReleased,
}

fn dialed_state(past: DialedPast) -> ConnState {
    match past {
        DialedPast::Nothing => ConnState::ReservedOutbound(reserved()),
        DialedPast::Connected => ConnState::Unnegotiated(dialed()),
        DialedPast::AgreedOneWay => ConnState::OutboundUni(outbound_uni()),
        DialedPast::ReleasedOneWay => ConnState::OutboundIdle(outbound_uni().release(9000)),
        DialedPast::ClosedOneWay => {
            ConnState::Terminating(outbound_uni().release(9000).grace_over(69_000))
        }
        DialedPast::Agreed => ConnState::OutboundDup(ticking()),
        DialedPast::Expired => ConnState::OutboundDup(ticking().grace_over()),
        DialedPast::Awake => ConnState::Duplex(ticking().awake(8)),
        DialedPast::ExpiredAwake => ConnState::Duplex(ticking().grace_over().awake(8)),
        DialedPast::Released => released(ticking().release(9000)),
        DialedPast::ExpiredReleased => released(ticking().grace_over().release(9000)),
    }
}

// What one that the other side dialed has gone through.
#[derive(Clone, Copy)]
enum AcceptedPast {
    Nothing,
    Agreed,
    Acquired,
    Closed,
    Awake,
    AwakeTwice,
    AwakeTwiceIdle,
    AwakeIdle,
    Used,
    UsedTwice,
    UsedTwiceIdle,
    UsedIdle,
    UsedReleased,
}

fn accepted_state(past: AcceptedPast) -> ConnState {
    match past {
        AcceptedPast::Nothing => {
            ConnState::Unnegotiated(Unnegotiated::accepted(Cid(1), AT_3002, 10_000))
        }
        AcceptedPast::Agreed => ConnState::InboundIdle(inbound_idle()),
        AcceptedPast::Acquired => ConnState::OutboundDup(inbound_idle().acquire()),
        AcceptedPast::Closed => ConnState::Terminating(inbound_idle().grace_over(65_000)),
        AcceptedPast::Awake => ConnState::Inbound(inbound()),
        AcceptedPast::AwakeTwice => ConnState::Inbound(inbound().awake(8)),
        AcceptedPast::AwakeTwiceIdle => after_inbound(inbound().awake(8).idle(2, 9000)),
        AcceptedPast::AwakeIdle => after_inbound(inbound().idle(2, 9000)),
        AcceptedPast::Used => ConnState::Duplex(duplex()),
        AcceptedPast::UsedTwice => ConnState::Duplex(duplex().awake(8)),
        AcceptedPast::UsedTwiceIdle => after_duplex(duplex().awake(8).idle(2, 9000)),
        AcceptedPast::UsedIdle => after_duplex(duplex().idle(2, 9000)),
        AcceptedPast::UsedReleased => ConnState::Inbound(duplex().release()),
    }
}

fn stands(rt: &impl Abort, state: &ConnState, name: StateName, grace: Grace) {
    assert!(rt; state.name() == name && state.as_facts().grace == grace);
}

const DIALED: [(DialedPast, StateName, Grace); 11] = [
    (DialedPast::Nothing, StateName::ReservedOutbound, Grace::Off),
    (
        DialedPast::Connected,
        StateName::UnnegotiatedOutbound,
        Grace::Off,
    ),
    (DialedPast::AgreedOneWay, StateName::OutboundUni, Grace::Off),
    (
        DialedPast::Agreed,
        StateName::OutboundDupTicking,
        Grace::ForRemote(5000),
    ),
    (
        DialedPast::Expired,
        StateName::OutboundDupExpired,
        Grace::Off,
    ),
    (DialedPast::Awake, StateName::Duplex, Grace::Off),
    (DialedPast::ExpiredAwake, StateName::Duplex, Grace::Off),
    (
        DialedPast::Released,
        StateName::InboundIdle,
        Grace::ForRemote(5000),
    ),
    (
        DialedPast::ExpiredReleased,
        StateName::OutboundIdle,
        Grace::ForLocal(9000),
    ),
    (
        DialedPast::ReleasedOneWay,
        StateName::OutboundIdle,
        Grace::ForLocal(9000),
    ),
    (DialedPast::ClosedOneWay, StateName::Terminating, Grace::Off),
];

fn are_dialed(rt: &impl Abort, rows: &[(DialedPast, StateName, Grace)]) {
    for (past, name, grace) in rows {
        stands(rt, &dialed_state(*past), *name, *grace);
    }
}

#[test]
fn moves_of_a_dialed_connection(rt: HostRuntime) {
    are_dialed(&rt, &DIALED);
}

const ACCEPTED: [(AcceptedPast, StateName, Grace); 13] = [
    (
        AcceptedPast::Nothing,
        StateName::UnnegotiatedInbound,
        Grace::Off,
    ),
    (
        AcceptedPast::Agreed,
        StateName::InboundIdle,
        Grace::ForRemote(5000),
    ),
    (
        AcceptedPast::Acquired,
        StateName::OutboundDupTicking,
        Grace::ForRemote(5000),
    ),
    (AcceptedPast::Closed, StateName::Terminating, Grace::Off),
    (AcceptedPast::Awake, StateName::Inbound, Grace::Off),
    (AcceptedPast::AwakeTwice, StateName::Inbound, Grace::Off),
    (AcceptedPast::AwakeTwiceIdle, StateName::Inbound, Grace::Off),
    (
        AcceptedPast::AwakeIdle,
        StateName::InboundIdle,
        Grace::ForRemote(9000),
    ),
    (AcceptedPast::Used, StateName::Duplex, Grace::Off),
    (AcceptedPast::UsedTwice, StateName::Duplex, Grace::Off),
    (AcceptedPast::UsedTwiceIdle, StateName::Duplex, Grace::Off),
    (
        AcceptedPast::UsedIdle,
        StateName::OutboundDupTicking,
        Grace::ForRemote(9000),
    ),
    (AcceptedPast::UsedReleased, StateName::Inbound, Grace::Off),
];

fn are_accepted(rt: &impl Abort, rows: &[(AcceptedPast, StateName, Grace)]) {
    for (past, name, grace) in rows {
        stands(rt, &accepted_state(*past), *name, *grace);
    }
}

fn runs_two(rt: &impl Abort, state: &ConnState) {
    let running = state.as_facts().running;
    assert!(rt; running.chain_sync && running.keep_alive);
}

fn is_in(rt: &impl Abort, state: &ConnState, phase: Phase) {
    assert!(rt; state.as_facts().phase == phase);
}

#[test]
fn moves_of_an_accepted_connection(rt: HostRuntime) {
    are_accepted(&rt, &ACCEPTED);
    is_in(
        &rt,
        &accepted_state(AcceptedPast::Closed),
        Phase::Closing(65_000),
    );
    runs_two(&rt, &accepted_state(AcceptedPast::AwakeTwice));
}

#[test]
fn a_peer_may_wake_what_is_kept_for_this_side(rt: HostRuntime) {
    let Some(state) = woken() else {
        assert!(rt; false);
        return;
    };
    let awake = ConnState::Inbound(state);
    assert!(rt; awake.as_facts().running.peer_sharing);
    stands(&rt, &awake, StateName::Inbound, Grace::Off);
}

const AWAKE: Facts = Facts {
    cid: Cid(1),
    addr: AT_3002,
    provenance: Provenance::FromLocal,
    phase: Phase::Negotiated,
    agreed: Some(BOTH_WAYS),
    local: true,
    running: Responders {
        keep_alive: true,
        ..NONE_RUNNING
    },
    grace: Grace::Off,
};

fn is_awake(rt: &impl Abort, state: &ConnState, facts: &Facts) {
    assert!(rt; state.facts() == *facts);
    assert!(rt; state.as_facts().cid == Cid(1));
    assert!(rt; name_of(facts) == StateName::Duplex);
    assert!(rt; some_runs(facts.running) && runs(8, facts.running));
    assert!(rt; !runs(10, facts.running) && !some_hot_runs(facts.running));
}

#[test]
fn all_that_is_known_of_a_connection(rt: HostRuntime) {
    is_awake(&rt, &dialed_state(DialedPast::Awake), &AWAKE);
}

// A question to what is known of a connection.
#[derive(Clone, Copy)]
enum Question {
    Dialing,
    Greeting,
    Pending,
    Negotiated,
    Live,
    Outbound,
    Duplex,
    Sharing,
    Acquirable,
    Counted,
    ServesRemote,
}

fn answer(question: Question, facts: &Facts) -> bool {
    match question {
        Question::Dialing => is_dialing(facts),
        Question::Greeting => is_greeting(facts),
        Question::Pending => is_pending(facts),
        Question::Negotiated => is_negotiated(facts),
        Question::Live => is_live(facts),
        Question::Outbound => is_outbound(facts),
        Question::Duplex => is_duplex(facts),
        Question::Sharing => is_sharing(facts),
        Question::Acquirable => is_acquirable(facts),
        Question::Counted => is_counted(facts),
        Question::ServesRemote => serves_remote(facts),
    }
}

fn are_answered(rt: &impl Abort, state: &ConnState, answers: &[(Question, bool)]) {
    for (question, wanted) in answers {
        assert!(rt; answer(*question, state.as_facts()) == *wanted);
    }
}

const RESERVED: [(Question, bool); 6] = [
    (Question::Dialing, true),
    (Question::Pending, true),
    (Question::Live, true),
    (Question::Outbound, true),
    (Question::ServesRemote, false),
    (Question::Counted, false),
];

const GREETING: [(Question, bool); 3] = [
    (Question::Greeting, true),
    (Question::Pending, true),
    (Question::Counted, false),
];

const IDLE: [(Question, bool); 6] = [
    (Question::Negotiated, true),
    (Question::Duplex, true),
    (Question::Sharing, true),
    (Question::Acquirable, true),
    (Question::Counted, true),
    (Question::ServesRemote, true),
];

const USED: [(Question, bool); 2] = [(Question::Acquirable, false), (Question::Counted, false)];

const CLOSED: [(Question, bool); 2] = [(Question::Live, false), (Question::Sharing, false)];

#[test]
fn questions_to_a_connection_that_goes_on(rt: HostRuntime) {
    are_answered(&rt, &dialed_state(DialedPast::Nothing), &RESERVED);
    are_answered(&rt, &dialed_state(DialedPast::Connected), &GREETING);
    are_answered(&rt, &accepted_state(AcceptedPast::Agreed), &IDLE);
    are_answered(&rt, &accepted_state(AcceptedPast::Acquired), &USED);
    are_answered(&rt, &accepted_state(AcceptedPast::Closed), &CLOSED);
}
