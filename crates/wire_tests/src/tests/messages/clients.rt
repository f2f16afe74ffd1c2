//! The handshake of local clients.

ghost use Rattle.std.specs.Prelude.{IfOk};
ghost use Rattle.hs_message.specs.Canonical.{IsOwnTableBy, IsClientOwn, CanWriteToClient};

use super::super::{expect, is_written};
use super::{Said, Why, expect_read, is_read, reason};
use hs_message::{
    Info, Message, Offer, Table, VersionInfo, read_client_message, write_client_message,
};
use net_base::OutOfMemory;
use std::alloc::Global;
use std::process::Abort;

const OWN: VersionInfo = VersionInfo {
    magic: 42,
    initiator_only: true,
    sharing: false,
    query: false,
};

// 32784 and 32785 with the own info.
const BOTH: [Offer; 2] = [
    Offer {
        version: 32784,
        info: Info::Known(OWN),
    },
    Offer {
        version: 32785,
        info: Info::Known(OWN),
    },
];

fn both(alloc: Global) -> Result<Table, OutOfMemory>
    ensures { IfOk result (λ table. IsOwnTableBy IsClientOwn table) }
{
    Table::from_slice(alloc, &BOTH)
}

const PROPOSAL: &[u8] = b"\x82\x00\xa2\x19\x80\x10\x82\x18\x2a\xf4\x19\x80\x11\x82\x18\x2a\xf4";

const ACCEPT: &[u8] = b"\x83\x01\x19\x80\x11\x82\x18\x2a\xf4";

const NO_COMMON: &[u8] = b"\x82\x02\x82\x00\x82\x19\x80\x10\x19\x80\x11";

const QUERY_REPLY: &[u8] = b"\x82\x03\xa2\x19\x80\x10\x82\x18\x2a\xf4\x19\x80\x11\x82\x18\x2a\xf4";

const DECLINED: &[u8] = b"\x82\x02\x83\x02\x19\x80\x11\x75network magic differs";

// Whether a message is written so.
fn writes(alloc: Global, message: &Message, bytes: &[u8]) -> bool
    requires { CanWriteToClient message.now }
{
    is_written(write_client_message(alloc, message), bytes)
}

fn writes_refusal(alloc: Global, why: Why, bytes: &[u8]) -> bool {
    match reason(alloc, why) {
        Ok(reason) => writes(alloc, &Message::Refuse(reason), bytes),
        Err(OutOfMemory) => false,
    }
}

// Whether a proposal of both versions is written.
fn writes_proposal(alloc: Global) -> Result<bool, OutOfMemory> {
    let proposal = Message::Propose(both(alloc)?);
    Ok(writes(alloc, &proposal, PROPOSAL))
}

// Whether a query reply of both versions is written.
fn writes_query_reply(alloc: Global) -> Result<bool, OutOfMemory> {
    let reply = Message::QueryReply(both(alloc)?);
    Ok(writes(alloc, &reply, QUERY_REPLY))
}

#[test]
fn the_vectors_of_clients_are_written(rt: HostRuntime) {
    assert!(rt; matches!(writes_proposal(rt.alloc()), Ok(true)));
    assert!(rt; matches!(writes_query_reply(rt.alloc()), Ok(true)));
    let accept = Message::Accept(32785, Info::Known(OWN));
    assert!(rt; writes(rt.alloc(), &accept, ACCEPT));
    let none = Why::NoCommon(&[32784, 32785]);
    assert!(rt; writes_refusal(rt.alloc(), none, NO_COMMON));
    let differs = Why::Declined(32785, b"network magic differs");
    assert!(rt; writes_refusal(rt.alloc(), differs, DECLINED));
}

// Bytes are read so, as a message of a client.
fn expect_read_of_client(rt: &impl Abort, alloc: Global, rows: &[(&[u8], Said)]) {
    for (bytes, said) in rows {
        let read = read_client_message(alloc, *bytes);
        expect(rt, is_read(read, *said), *bytes);
    }
}

const MESSAGES: [(&[u8], Said); 5] = [
    (PROPOSAL, Said::Propose(&BOTH)),
    (QUERY_REPLY, Said::QueryReply(&BOTH)),
    (ACCEPT, Said::Accept(32785, Info::Known(OWN))),
    // heads of every width, the greatest magic, and query
    (
        b"\x98\x03\x01\x1a\x00\x00\x80\x10\x99\x00\x02\x1b\x00\x00\x00\x00\xff\xff\xff\xff\xf5",
        Said::Accept(
            32784,
            Info::Known(VersionInfo {
                magic: 4_294_967_295,
                initiator_only: true,
                sharing: false,
                query: true,
            }),
        ),
    ),
    // keys that do not rise
    (
        b"\x82\x00\xa2\x19\x80\x11\x00\x19\x80\x10\x00",
        Said::Nothing,
    ),
];

#[test]
fn messages_of_clients_are_read(rt: HostRuntime) {
    expect_read_of_client(&rt, rt.alloc(), &MESSAGES);
}

const FOREIGN: Said = Said::Accept(32785, Info::Foreign);

const FOREIGN_INFOS: [(&[u8], Said); 9] = [
    // too few, too many, and what nodes say
    (b"\x83\x01\x19\x80\x11\x81\x18\x2a", FOREIGN),
    (b"\x83\x01\x19\x80\x11\x83\x18\x2a\xf4\xf4", FOREIGN),
    (b"\x83\x01\x19\x80\x11\x84\x18\x2a\xf4\x01\xf4", FOREIGN),
    // the magic too large, query a number or null
    (
        b"\x83\x01\x19\x80\x11\x82\x1b\x00\x00\x00\x01\x00\x00\x00\x00\xf4",
        FOREIGN,
    ),
    (b"\x83\x01\x19\x80\x11\x82\x18\x2a\x00", FOREIGN),
    (b"\x83\x01\x19\x80\x11\x82\x18\x2a\xf6", FOREIGN),
    // no definite array
    (b"\x83\x01\x19\x80\x11\x9f\x18\x2a\xf4\xff", FOREIGN),
    (b"\x83\x01\x19\x80\x11\xc1\x82\x18\x2a\xf4", FOREIGN),
    (b"\x83\x01\x19\x80\x11\xa0", FOREIGN),
];

#[test]
fn every_other_info_of_a_client_is_foreign(rt: HostRuntime) {
    expect_read_of_client(&rt, rt.alloc(), &FOREIGN_INFOS);
}

const VERSIONS_OF_NODES: [(&[u8], Said); 3] = [
    (
        b"\x83\x01\x0e\x84\x18\x2a\xf4\x01\xf4",
        Said::Accept(14, Info::Foreign),
    ),
    (
        b"\x83\x01\x0e\x82\x18\x2a\xf4",
        Said::Accept(14, Info::Foreign),
    ),
    (
        b"\x83\x01\x19\x80\x0f\x82\x18\x2a\xf4",
        Said::Accept(32783, Info::Foreign),
    ),
];

#[test]
fn neither_handshake_knows_the_versions_of_the_other(rt: HostRuntime) {
    expect_read(&rt, rt.alloc(), &[(ACCEPT, FOREIGN)]);
    expect_read_of_client(&rt, rt.alloc(), &VERSIONS_OF_NODES);
}
