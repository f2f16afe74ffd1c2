use super::expect;
use hs_decide::{Role, Verdict};
use hs_message::VersionInfo;
use hs_receive::{Received, kind_of, receive};
use mux_segment::{CutFault, LentItem};
use net_base::{Agreed, FaultKind};
use std::alloc::Global;

const OWN: VersionInfo = VersionInfo {
    magic: 42,
    initiator_only: false,
    sharing: true,
    query: false,
};

const PROPOSAL: &[u8] = b"\x82\x00\xa2\x0d\x84\x18\x2a\xf4\x01\xf4\x0e\x84\x18\x2a\xf4\x01\xf4";

const ACCEPTANCE: &[u8] = b"\x83\x01\x0e\x84\x18\x2a\xf4\x01\xf4";

const DUPLEX: Agreed = Agreed {
    version: 14,
    initiator_only: false,
    sharing: true,
};

// Whether these bytes come to this.
fn is_received(
    alloc: Global,
    role: Role,
    side: u8,
    id: u16,
    body: &[u8],
    wanted: Received,
) -> bool {
    receive(alloc, role, &OWN, &LentItem { side, id, body }) == Ok(wanted)
}

#[test]
fn items_are_received(rt: HostRuntime) {
    let agrees = Received::Decided(Verdict::Agree(DUPLEX));
    let protocol = Received::Fault(FaultKind::Protocol);
    let malformed = Received::Fault(FaultKind::Malformed);
    let cases: [(Role, u8, u16, &[u8], Received); 10] = [
        (
            Role::Acceptor,
            0,
            0,
            PROPOSAL,
            Received::Decided(Verdict::Accept(DUPLEX)),
        ),
        (
            Role::Acceptor,
            0,
            0,
            ACCEPTANCE,
            Received::Decided(Verdict::Wrong),
        ),
        (Role::Acceptor, 1, 0, PROPOSAL, protocol),
        (Role::Acceptor, 0, 8, PROPOSAL, protocol),
        (Role::Acceptor, 0, 0, b"\x00", malformed),
        (Role::Dialer, 1, 0, ACCEPTANCE, agrees),
        (Role::Dialer, 0, 0, ACCEPTANCE, protocol),
        (Role::Dialer, 0, 0, PROPOSAL, agrees),
        (Role::Dialer, 1, 0, PROPOSAL, protocol),
        (Role::Dialer, 1, 0, b"\x81\x09", malformed),
    ];
    for (role, side, id, body, wanted) in cases {
        let holds = is_received(rt.alloc(), role, side, id, body, wanted);
        expect(&rt, holds, body);
    }
}

#[test]
fn faults_have_their_kinds(rt: HostRuntime) {
    assert!(rt; kind_of(CutFault::Bad) == FaultKind::Malformed);
    assert!(rt; kind_of(CutFault::Deep) == FaultKind::Deep);
    assert!(rt; kind_of(CutFault::TooLong) == FaultKind::TooLong);
    assert!(rt; kind_of(CutFault::UnknownId) == FaultKind::UnknownId);
}
