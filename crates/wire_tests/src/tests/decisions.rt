ghost use Rattle.hs_decide.specs.Answers.{CanAnswer};

use super::{expect, is_written};
use hs_decide::{Role, Verdict, Why, answer, decide, proposal};
use hs_message::{Info, Message, Offer, Reason, Table, VersionInfo};
use net_base::{Agreed, NumberList, Octets, OutOfMemory};
use std::alloc::Global;
use std::process::Abort;

const OWN: VersionInfo = VersionInfo {
    magic: 42,
    initiator_only: false,
    sharing: true,
    query: false,
};

const DIALS_ONLY: VersionInfo = VersionInfo {
    magic: 42,
    initiator_only: true,
    sharing: true,
    query: false,
};

const SHARES_NOTHING: VersionInfo = VersionInfo {
    magic: 42,
    initiator_only: false,
    sharing: false,
    query: false,
};

const ASKS: VersionInfo = VersionInfo {
    magic: 42,
    initiator_only: true,
    sharing: true,
    query: true,
};

const ELSEWHERE: VersionInfo = VersionInfo {
    magic: 43,
    initiator_only: false,
    sharing: true,
    query: false,
};

const ASKS_ELSEWHERE: VersionInfo = VersionInfo {
    magic: 43,
    initiator_only: false,
    sharing: true,
    query: true,
};

const DUPLEX: Agreed = Agreed {
    version: 14,
    initiator_only: false,
    sharing: true,
};

fn known(version: u64, info: VersionInfo) -> Offer {
    Offer {
        version,
        info: Info::Known(info),
    }
}

fn foreign(version: u64) -> Offer {
    Offer {
        version,
        info: Info::Foreign,
    }
}

fn agreed(version: u64, initiator_only: bool, sharing: bool) -> Agreed {
    Agreed {
        version,
        initiator_only,
        sharing,
    }
}

// What is said to a node.
#[derive(Clone, Copy)]
enum Said<'a> {
    Propose(&'a [Offer]),
    Accept(Offer),
    Refuse,
    QueryReply(&'a [Offer]),
}

fn message(alloc: Global, said: Said) -> Result<Message, OutOfMemory> {
    Ok(match said {
        Said::Propose(offers) => Message::Propose(Table::from_slice(alloc, offers)?),
        Said::Accept(offer) => Message::Accept(offer.version, offer.info),
        Said::Refuse => Message::Refuse(Reason::NoCommon(NumberList::new(alloc))),
        Said::QueryReply(offers) => Message::QueryReply(Table::from_slice(alloc, offers)?),
    })
}

// Whether a node that says this of itself comes to a verdict.
fn is_decided(alloc: Global, role: Role, own: &VersionInfo, said: Said, want: Verdict) -> bool {
    match message(alloc, said) {
        Ok(message) => decide(role, own, &message) == want,
        Err(OutOfMemory) => false,
    }
}

// Each of these offers comes to its verdict.
fn expect_verdicts(rt: &impl Abort, alloc: Global, role: Role, cases: &[(&[Offer], Verdict)]) {
    for (n, (offers, want)) in cases.iter().enumerate() {
        let decided = is_decided(alloc, role, &OWN, Said::Propose(*offers), *want);
        assert!(rt; decided, "at case {n}");
    }
}

fn refuses_what_it_does_not_know(rt: &impl Abort, alloc: Global) {
    let cases: [(&[Offer], Verdict); 5] = [
        (&[], Verdict::Refuse(Why::NoCommon)),
        (
            &[known(12, OWN), known(15, OWN)],
            Verdict::Refuse(Why::NoCommon),
        ),
        (&[foreign(14)], Verdict::Refuse(Why::NotDecoded(14))),
        (&[foreign(13)], Verdict::Refuse(Why::NotDecoded(13))),
        (
            &[known(13, OWN), foreign(14)],
            Verdict::Refuse(Why::NotDecoded(14)),
        ),
    ];
    expect_verdicts(rt, alloc, Role::Acceptor, &cases);
}

fn refuses_other_networks(rt: &impl Abort, alloc: Global) {
    let cases: [(&[Offer], Verdict); 4] = [
        (&[known(14, ELSEWHERE)], Verdict::Refuse(Why::Magic(14))),
        (&[known(13, ELSEWHERE)], Verdict::Refuse(Why::Magic(13))),
        (
            &[known(13, OWN), known(14, ELSEWHERE)],
            Verdict::Refuse(Why::Magic(14)),
        ),
        (
            &[known(14, ASKS_ELSEWHERE)],
            Verdict::Refuse(Why::Magic(14)),
        ),
    ];
    expect_verdicts(rt, alloc, Role::Acceptor, &cases);
}

fn takes_the_greatest_version(rt: &impl Abort, alloc: Global) {
    let duplex = Verdict::Accept(agreed(14, false, true));
    let cases: [(&[Offer], Verdict); 4] = [
        (&[foreign(13), known(14, OWN)], duplex),
        (&[known(14, ASKS)], Verdict::Query),
        (&[known(13, ASKS), known(14, OWN)], duplex),
        (&[known(13, OWN), known(14, OWN)], duplex),
    ];
    expect_verdicts(rt, alloc, Role::Acceptor, &cases);
}

fn takes_what_is_offered(rt: &impl Abort, alloc: Global) {
    let cases: [(&[Offer], Verdict); 5] = [
        (&[known(13, OWN)], Verdict::Accept(agreed(13, false, true))),
        (
            &[known(13, OWN), known(15, OWN)],
            Verdict::Accept(agreed(13, false, true)),
        ),
        (
            &[known(14, DIALS_ONLY)],
            Verdict::Accept(agreed(14, true, true)),
        ),
        (
            &[known(14, SHARES_NOTHING)],
            Verdict::Accept(agreed(14, false, false)),
        ),
        (
            &[known(13, OWN), known(14, DIALS_ONLY)],
            Verdict::Accept(agreed(14, true, true)),
        ),
    ];
    expect_verdicts(rt, alloc, Role::Acceptor, &cases);
}

#[test]
fn an_acceptor_decides_on_a_proposal(rt: HostRuntime) {
    let alloc = rt.alloc();
    refuses_what_it_does_not_know(&rt, alloc);
    refuses_other_networks(&rt, alloc);
    takes_the_greatest_version(&rt, alloc);
    takes_what_is_offered(&rt, alloc);
    let both = Said::Propose(&[known(13, OWN), known(14, OWN)]);
    let want = Verdict::Accept(agreed(14, true, true));
    assert!(rt; is_decided(alloc, Role::Acceptor, &DIALS_ONLY, both, want));
    let want = Verdict::Accept(agreed(14, false, false));
    assert!(rt; is_decided(alloc, Role::Acceptor, &SHARES_NOTHING, both, want));
}

fn dialer_does_not_agree(rt: &impl Abort, alloc: Global) {
    let cases: [(&[Offer], Verdict); 8] = [
        (&[], Verdict::Refused),
        (&[known(12, OWN), known(15, OWN)], Verdict::Refused),
        (&[foreign(14)], Verdict::Refused),
        (&[known(13, OWN), foreign(14)], Verdict::Refused),
        (&[known(14, ELSEWHERE)], Verdict::Refused),
        (&[known(14, ASKS_ELSEWHERE)], Verdict::Refused),
        (&[known(14, ASKS)], Verdict::Wrong),
        (&[known(14, DIALS_ONLY)], Verdict::Refused),
    ];
    expect_verdicts(rt, alloc, Role::Dialer, &cases);
}

fn dialer_agrees(rt: &impl Abort, alloc: Global) {
    let cases: [(&[Offer], Verdict); 4] = [
        (
            &[known(14, SHARES_NOTHING)],
            Verdict::Agree(agreed(14, false, false)),
        ),
        (
            &[known(13, DIALS_ONLY), known(14, OWN)],
            Verdict::Agree(agreed(14, false, true)),
        ),
        (&[known(13, OWN)], Verdict::Agree(agreed(13, false, true))),
        (
            &[known(13, OWN), known(14, OWN)],
            Verdict::Agree(agreed(14, false, true)),
        ),
    ];
    expect_verdicts(rt, alloc, Role::Dialer, &cases);
}

#[test]
fn a_dialer_decides_on_a_proposal(rt: HostRuntime) {
    let alloc = rt.alloc();
    dialer_does_not_agree(&rt, alloc);
    dialer_agrees(&rt, alloc);
    let both = Said::Propose(&[known(13, OWN), known(14, OWN)]);
    assert!(rt; is_decided(alloc, Role::Dialer, &DIALS_ONLY, both, Verdict::Refused));
}

// Whether a dialer comes to this verdict, and an acceptor takes the message for a wrong one.
fn is_for_a_dialer(alloc: Global, said: Said, want: Verdict) -> bool {
    is_decided(alloc, Role::Dialer, &OWN, said, want)
        && is_decided(alloc, Role::Acceptor, &OWN, said, Verdict::Wrong)
}

fn expect_for_a_dialer(rt: &impl Abort, alloc: Global, cases: &[(Said, Verdict)]) {
    for (n, (said, want)) in cases.iter().enumerate() {
        assert!(rt; is_for_a_dialer(alloc, *said, *want), "at case {n}");
    }
}

#[test]
fn other_messages_are_decided(rt: HostRuntime) {
    let both_ways = Verdict::Agree(agreed(14, false, true));
    let one_way = Verdict::Agree(agreed(14, true, true));
    let cases: [(Said, Verdict); 11] = [
        (Said::Accept(known(14, OWN)), both_ways),
        (
            Said::Accept(known(13, OWN)),
            Verdict::Agree(agreed(13, false, true)),
        ),
        (Said::Accept(known(14, DIALS_ONLY)), one_way),
        (
            Said::Accept(known(14, SHARES_NOTHING)),
            Verdict::Agree(agreed(14, false, false)),
        ),
        // the query flag of an accept is not looked at
        (Said::Accept(known(14, ASKS)), one_way),
        (Said::Accept(known(12, OWN)), Verdict::Wrong),
        (Said::Accept(known(15, OWN)), Verdict::Wrong),
        (Said::Accept(foreign(14)), Verdict::Wrong),
        (Said::Accept(known(14, ELSEWHERE)), Verdict::Wrong),
        (Said::Refuse, Verdict::Refused),
        (Said::QueryReply(&[known(14, OWN)]), Verdict::Wrong),
    ];
    expect_for_a_dialer(&rt, rt.alloc(), &cases);
}

// Whether these bytes are an answer, or none is.
fn is_answer(answered: Result<Option<Octets>, OutOfMemory>, bytes: Option<&[u8]>) -> bool {
    match (&answered, bytes) {
        (Ok(Some(octets)), Some(bytes)) => octets.as_slice() == bytes,
        (Ok(None), None) => true,
        _ => false,
    }
}

fn is_answered(alloc: Global, verdict: Verdict, bytes: Option<&[u8]>) -> bool
    requires { CanAnswer verdict }
{
    is_answer(answer(alloc, &verdict, &OWN), bytes)
}

#[test]
fn the_vectors_are_answered(rt: HostRuntime) {
    let alloc = rt.alloc();
    let bytes = b"\x82\x00\xa2\x0d\x84\x18\x2a\xf4\x01\xf4\x0e\x84\x18\x2a\xf4\x01\xf4";
    assert!(rt; is_written(proposal(alloc, &OWN), bytes));
    let bytes = b"\x83\x01\x0e\x84\x18\x2a\xf4\x01\xf4";
    assert!(rt; is_answered(alloc, Verdict::Accept(DUPLEX), Some(bytes)));
    let rows: [(Why, &[u8]); 3] = [
        (Why::NoCommon, b"\x82\x02\x82\x00\x82\x0d\x0e"),
        (
            Why::NotDecoded(14),
            b"\x82\x02\x83\x01\x0e\x78\x1bversion data not understood",
        ),
        (
            Why::Magic(14),
            b"\x82\x02\x83\x02\x0e\x75network magic differs",
        ),
    ];
    for (why, bytes) in rows {
        let holds = is_answered(alloc, Verdict::Refuse(why), Some(bytes));
        expect(&rt, holds, bytes);
    }
    let bytes = b"\x82\x03\xa2\x0d\x84\x18\x2a\xf4\x01\xf4\x0e\x84\x18\x2a\xf4\x01\xf4";
    assert!(rt; is_answered(alloc, Verdict::Query, Some(bytes)));
    assert!(rt; is_answered(alloc, Verdict::Agree(DUPLEX), None));
    assert!(rt; is_answered(alloc, Verdict::Refused, None));
    assert!(rt; is_answered(alloc, Verdict::Wrong, None));
}
