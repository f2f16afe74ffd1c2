use super::{expect, is_written};
use net_base::{Addr, Agreed, Cid, Facts, FaultKind, Grace, Ip, Phase, Provenance, Responders};
use remote_watch::{RemoteTemp, Reply, Seen, WatchRefusal, remote_temp, reply_bytes, watch};
use std::alloc::Global;
use std::process::Abort;

const GOES_ON: bool = false;

const DONE: bool = true;

// Whether an item is seen so.
fn is_seen(
    alloc: Global,
    id: u16,
    sharing: bool,
    item: &[u8],
    wanted: Result<Seen, WatchRefusal>,
) -> bool {
    watch(alloc, id, sharing, item) == wanted
}

// Whether a reply, to be told of these peers, has these bytes.
fn has_bytes(alloc: Global, reply: Reply, peers: &[Addr], bytes: &[u8]) -> bool {
    is_written(reply_bytes(alloc, &reply, peers), bytes)
}

// What side 0 may send, line by line, and what it is answered.
#[test]
fn what_an_initiator_may_send(rt: HostRuntime) {
    let rows: [(u16, &[u8], bool, Reply, &[u8]); 14] = [
        (
            2,
            b"\x82\x04\x80",
            GOES_ON,
            Reply::NoIntersect,
            b"\x82\x06\x82\x80\x00",
        ),
        (2, b"\x81\x00", GOES_ON, Reply::Await, b"\x81\x01"),
        (2, b"\x81\x07", DONE, Reply::Nothing, b""),
        (2, b"\x9f\x05\xff", GOES_ON, Reply::Nothing, b""),
        (
            3,
            b"\x83\x00\x80\x80",
            GOES_ON,
            Reply::NoBlocks,
            b"\x81\x03",
        ),
        (3, b"\x81\x01", DONE, Reply::Nothing, b""),
        (3, b"\x81\x07", GOES_ON, Reply::Nothing, b""),
        (4, b"\x81\x04", DONE, Reply::Nothing, b""),
        (4, b"\x81\x06", GOES_ON, Reply::Nothing, b""),
        (
            8,
            b"\x82\x00\x05",
            GOES_ON,
            Reply::Alive(5),
            b"\x82\x01\x05",
        ),
        (8, b"\x81\x02", DONE, Reply::Nothing, b""),
        (
            10,
            b"\x82\x00\x18\x64",
            GOES_ON,
            Reply::Share(100),
            b"\x82\x01\x80",
        ),
        (10, b"\x81\x02", DONE, Reply::Nothing, b""),
        (2, b"\x98\x01\x19\x00\x07", DONE, Reply::Nothing, b""),
    ];
    for (id, item, done, reply, bytes) in rows {
        let seen = Ok(Seen { done, reply });
        expect(&rt, is_seen(rt.alloc(), id, true, item, seen), item);
        expect(&rt, has_bytes(rt.alloc(), reply, &[], bytes), item);
    }
    let peer = Addr {
        ip: Ip::V4(0x7f00_0001),
        port: 3003,
    };
    let wanted = b"\x82\x01\x81\x83\x00\x1a\x7f\x00\x00\x01\x19\x0b\xbb";
    assert!(rt; has_bytes(rt.alloc(), Reply::Share(5), &[peer], wanted));
}

#[test]
fn what_is_a_fault(rt: HostRuntime) {
    let rows: [(u16, bool, &[u8], FaultKind); 17] = [
        // the handshake is over
        (0, true, b"\x81\x00", FaultKind::Protocol),
        // no first number
        (2, true, b"\x80", FaultKind::Protocol),
        (3, true, b"\x00", FaultKind::Protocol),
        (4, true, b"\xa1\x00\x00", FaultKind::Protocol),
        // what a responder sends, and what nobody does
        (8, true, b"\x82\x01\x05", FaultKind::Protocol),
        (8, true, b"\x81\x03", FaultKind::Protocol),
        (
            8,
            true,
            b"\x82\x00\x1a\x00\x01\x00\x00",
            FaultKind::Protocol,
        ),
        (10, true, b"\x82\x01\x80", FaultKind::Protocol),
        (10, true, b"\x81\x00", FaultKind::Protocol),
        (10, true, b"", FaultKind::Protocol),
        // nothing was agreed on peer sharing
        (10, false, b"\x82\x00\x02", FaultKind::UnknownId),
        (10, false, b"\x81\x02", FaultKind::UnknownId),
        // other numbers
        (1, true, b"\x81\x00", FaultKind::UnknownId),
        (5, true, b"\x81\x00", FaultKind::UnknownId),
        (9, false, b"\x81\x00", FaultKind::UnknownId),
        (11, true, b"\x81\x00", FaultKind::UnknownId),
        (65_535, true, b"", FaultKind::UnknownId),
    ];
    for (id, sharing, item, kind) in rows {
        let fault = Err(WatchRefusal::Fault(kind));
        expect(&rt, is_seen(rt.alloc(), id, sharing, item, fault), item);
    }
}

fn facts(phase: Phase, running: Responders) -> Facts {
    Facts {
        cid: Cid(1),
        addr: Addr {
            ip: Ip::V4(0x7f00_0001),
            port: 3002,
        },
        provenance: Provenance::FromRemote,
        phase,
        agreed: Some(Agreed {
            version: 14,
            initiator_only: false,
            sharing: true,
        }),
        local: false,
        running,
        grace: Grace::Off,
    }
}

fn is_temp(phase: Phase, running: Responders, temp: RemoteTemp) -> bool {
    remote_temp(&facts(phase, running)) == temp
}

fn expect_temps(rt: &impl Abort, rows: &[(Phase, Responders, RemoteTemp)]) {
    for (n, (phase, running, temp)) in rows.iter().enumerate() {
        assert!(rt; is_temp(*phase, *running, *temp), "at row {n}");
    }
}

#[test]
fn how_far_the_other_side_uses_a_connection(rt: HostRuntime) {
    let none = Responders {
        chain_sync: false,
        block_fetch: false,
        tx_submission: false,
        keep_alive: false,
        peer_sharing: false,
    };
    let rows = [
        (Phase::Dialing, none, RemoteTemp::Cold),
        (Phase::Greeting(10), none, RemoteTemp::Cold),
        (Phase::Closing(10), none, RemoteTemp::Cold),
        (Phase::Negotiated, none, RemoteTemp::Idle),
        (
            Phase::Negotiated,
            Responders {
                keep_alive: true,
                ..none
            },
            RemoteTemp::Warm,
        ),
        (
            Phase::Negotiated,
            Responders {
                peer_sharing: true,
                ..none
            },
            RemoteTemp::Warm,
        ),
        (
            Phase::Negotiated,
            Responders {
                chain_sync: true,
                ..none
            },
            RemoteTemp::Hot,
        ),
        (
            Phase::Negotiated,
            Responders {
                block_fetch: true,
                keep_alive: true,
                ..none
            },
            RemoteTemp::Hot,
        ),
        (
            Phase::Negotiated,
            Responders {
                tx_submission: true,
                ..none
            },
            RemoteTemp::Hot,
        ),
    ];
    expect_temps(&rt, &rows);
}
