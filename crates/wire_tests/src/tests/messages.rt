ghost use Rattle.std.specs.Prelude.{IfOk};
ghost use Rattle.hs_message.specs.Canonical.{IsOwnTableBy, IsNodeOwn, CanWrite};

use super::{expect, filled, is_written};
use hs_message::{
    Info, Message, Offer, ReadRefusal, Reason, Table, VersionInfo, read_message, write_message,
};
use net_base::{NumberList, Octets, OutOfMemory};
use std::alloc::Global;
use std::process::Abort;

mod clients;

// What a message says.
#[derive(Clone, Copy)]
enum Said<'a> {
    Propose(&'a [Offer]),
    Accept(u64, Info),
    Refuse(Why<'a>),
    QueryReply(&'a [Offer]),
    // there is no message
    Nothing,
}

#[derive(Clone, Copy)]
enum Why<'a> {
    NoCommon(&'a [u64]),
    NotDecoded(u64, &'a [u8]),
    Declined(u64, &'a [u8]),
}

fn is_reason(reason: &Reason, why: Why) -> bool {
    match (reason, why) {
        (Reason::NoCommon(listed), Why::NoCommon(versions)) => listed.as_slice() == versions,
        (Reason::NotDecoded(of, said), Why::NotDecoded(version, text))
        | (Reason::Declined(of, said), Why::Declined(version, text)) => {
            *of == version && said.as_slice() == text
        }
        _ => false,
    }
}

fn is_said(message: &Message, said: Said) -> bool {
    match (message, said) {
        (Message::Propose(table), Said::Propose(offers))
        | (Message::QueryReply(table), Said::QueryReply(offers)) => table.as_slice() == offers,
        (Message::Accept(of, found), Said::Accept(version, info)) => {
            *of == version && *found == info
        }
        (Message::Refuse(reason), Said::Refuse(why)) => is_reason(reason, why),
        _ => false,
    }
}

// Whether this was read.
fn is_read(read: Result<Message, ReadRefusal>, said: Said) -> bool {
    match &read {
        Ok(message) => is_said(message, said),
        Err(refusal) => *refusal == ReadRefusal::NotAMessage && matches!(said, Said::Nothing),
    }
}

fn reads(alloc: Global, bytes: &[u8], said: Said) -> bool {
    is_read(read_message(alloc, bytes), said)
}

fn expect_read(rt: &impl Abort, alloc: Global, rows: &[(&[u8], Said)]) {
    for (bytes, said) in rows {
        expect(rt, reads(alloc, *bytes, *said), *bytes);
    }
}

fn reason(alloc: Global, why: Why) -> Result<Reason, OutOfMemory> {
    Ok(match why {
        Why::NoCommon(versions) => Reason::NoCommon(NumberList::from_slice(alloc, versions)?),
        Why::NotDecoded(version, text) => {
            Reason::NotDecoded(version, Octets::from_slice(alloc, text)?)
        }
        Why::Declined(version, text) => Reason::Declined(version, Octets::from_slice(alloc, text)?),
    })
}

// Whether a message is written so.
fn writes(alloc: Global, message: &Message, bytes: &[u8]) -> bool
    requires { CanWrite message.now }
{
    is_written(write_message(alloc, message), bytes)
}

fn writes_refusal(alloc: Global, why: Why, bytes: &[u8]) -> bool {
    match reason(alloc, why) {
        Ok(reason) => writes(alloc, &Message::Refuse(reason), bytes),
        Err(OutOfMemory) => false,
    }
}

const OWN: VersionInfo = VersionInfo {
    magic: 42,
    initiator_only: false,
    sharing: true,
    query: false,
};

// 13 and 14 with the own info.
const BOTH: [Offer; 2] = [
    Offer {
        version: 13,
        info: Info::Known(OWN),
    },
    Offer {
        version: 14,
        info: Info::Known(OWN),
    },
];

fn both(alloc: Global) -> Result<Table, OutOfMemory>
    ensures { IfOk result (λ table. IsOwnTableBy IsNodeOwn table) }
{
    Table::from_slice(alloc, &BOTH)
}

const PROPOSAL: &[u8] = b"\x82\x00\xa2\x0d\x84\x18\x2a\xf4\x01\xf4\x0e\x84\x18\x2a\xf4\x01\xf4";

const ACCEPT: &[u8] = b"\x83\x01\x0e\x84\x18\x2a\xf4\x01\xf4";

const NO_COMMON: &[u8] = b"\x82\x02\x82\x00\x82\x0d\x0e";

const NOT_DECODED: &[u8] = b"\x82\x02\x83\x01\x0e\x78\x1bversion data not understood";

const DECLINED: &[u8] = b"\x82\x02\x83\x02\x0e\x75network magic differs";

const QUERY_REPLY: &[u8] = b"\x82\x03\xa2\x0d\x84\x18\x2a\xf4\x01\xf4\x0e\x84\x18\x2a\xf4\x01\xf4";

// Whether a proposal of both versions is written.
fn writes_proposal(alloc: Global) -> Result<bool, OutOfMemory> {
    let proposal = Message::Propose(both(alloc)?);
    Ok(writes(alloc, &proposal, PROPOSAL))
}

// Whether a query reply of both versions is written.
fn writes_query_reply(alloc: Global) -> Result<bool, OutOfMemory> {
    let reply = Message::QueryReply(both(alloc)?);
    Ok(writes(alloc, &reply, QUERY_REPLY))
}

const REFUSALS: [(Why, &[u8]); 3] = [
    (Why::NoCommon(&[13, 14]), NO_COMMON),
    (
        Why::NotDecoded(14, b"version data not understood"),
        NOT_DECODED,
    ),
    (Why::Declined(14, b"network magic differs"), DECLINED),
];

#[test]
fn the_vectors_are_written(rt: HostRuntime) {
    assert!(rt; matches!(writes_proposal(rt.alloc()), Ok(true)));
    assert!(rt; matches!(writes_query_reply(rt.alloc()), Ok(true)));
    let accept = Message::Accept(14, Info::Known(OWN));
    assert!(rt; writes(rt.alloc(), &accept, ACCEPT));
    for &(why, bytes) in &REFUSALS {
        expect(&rt, writes_refusal(rt.alloc(), why, bytes), bytes);
    }
}

const OFFERS: [(&[u8], Said); 5] = [
    (PROPOSAL, Said::Propose(&BOTH)),
    // heads of every width
    (
        b"\x98\x02\x19\x00\x00\xba\x00\x00\x00\x01\x1b\x00\x00\x00\x00\x00\x00\x00\x0e\x98\x04\x1a\x00\x00\x00\x2a\xf5\x18\x01\xf5",
        Said::Propose(&[Offer {
            version: 14,
            info: Info::Known(VersionInfo {
                magic: 42,
                initiator_only: true,
                sharing: true,
                query: true,
            }),
        }]),
    ),
    // nothing in it
    (b"\x82\x00\xa0", Said::Propose(&[])),
    (QUERY_REPLY, Said::QueryReply(&BOTH)),
    (b"\x82\x03\xa0", Said::QueryReply(&[])),
];

#[test]
fn offers_are_read(rt: HostRuntime) {
    expect_read(&rt, rt.alloc(), &OFFERS);
}

const ACCEPTS: [(&[u8], Said); 3] = [
    (ACCEPT, Said::Accept(14, Info::Known(OWN))),
    // peer sharing as a flag, and the greatest magic
    (
        b"\x83\x01\x0d\x84\x1a\xff\xff\xff\xff\xf4\xf5\xf4",
        Said::Accept(
            13,
            Info::Known(VersionInfo {
                magic: 4_294_967_295,
                initiator_only: false,
                sharing: true,
                query: false,
            }),
        ),
    ),
    (
        b"\x83\x01\x0d\x84\x00\xf4\xf4\xf4",
        Said::Accept(
            13,
            Info::Known(VersionInfo {
                magic: 0,
                initiator_only: false,
                sharing: false,
                query: false,
            }),
        ),
    ),
];

#[test]
fn accepts_are_read(rt: HostRuntime) {
    expect_read(&rt, rt.alloc(), &ACCEPTS);
}

const LISTS: [(&[u8], Said); 4] = [
    (NO_COMMON, Said::Refuse(Why::NoCommon(&[13, 14]))),
    // an indefinite list of versions
    (
        b"\x82\x02\x82\x00\x9f\x0d\x18\x0e\xff",
        Said::Refuse(Why::NoCommon(&[13, 14])),
    ),
    (
        b"\x82\x02\x82\x00\x9f\xff",
        Said::Refuse(Why::NoCommon(&[])),
    ),
    // nothing in it
    (b"\x82\x02\x82\x00\x80", Said::Refuse(Why::NoCommon(&[]))),
];

#[test]
fn lists_of_versions_are_read(rt: HostRuntime) {
    expect_read(&rt, rt.alloc(), &LISTS);
}

const TEXTS: [(&[u8], Said); 5] = [
    (
        b"\x82\x02\x83\x01\x0e\x62no",
        Said::Refuse(Why::NotDecoded(14, &[110, 111])),
    ),
    // heads of every width
    (
        b"\x9b\x00\x00\x00\x00\x00\x00\x00\x02\x18\x02\x99\x00\x03\x1a\x00\x00\x00\x01\x19\x00\x0e\x78\x01\x79",
        Said::Refuse(Why::NotDecoded(14, &[121])),
    ),
    // nothing in it
    (
        b"\x82\x02\x83\x01\x00\x60",
        Said::Refuse(Why::NotDecoded(0, &[])),
    ),
    (
        b"\x82\x02\x83\x02\x0d\x61\x78",
        Said::Refuse(Why::Declined(13, &[120])),
    ),
    // a text that is not UTF-8, and the greatest version
    (
        b"\x82\x02\x83\x02\x1b\xff\xff\xff\xff\xff\xff\xff\xff\x62\xff\xfe",
        Said::Refuse(Why::Declined(18_446_744_073_709_551_615, &[255, 254])),
    ),
];

#[test]
fn texts_are_read(rt: HostRuntime) {
    expect_read(&rt, rt.alloc(), &TEXTS);
}

// Whether the accept of a version is read so, with so many levels around some bytes for its info.
fn reads_accept(alloc: Global, version: u8, levels: usize, inner: &[u8], said: Said) -> bool {
    match filled(alloc, &[0x83, 0x01, version], (levels, 0x81), inner) {
        Ok(bytes) => reads(alloc, &bytes, said),
        Err(_) => false,
    }
}

const FOREIGN: Said = Said::Accept(14, Info::Foreign);

#[test]
fn every_other_info_is_foreign(rt: HostRuntime) {
    for &info in &INFOS {
        expect(&rt, reads_accept(rt.alloc(), 14, 0, info, FOREIGN), info);
    }
    // other versions
    for version in [12, 15, 0] {
        let said = Said::Accept(u64::from(version), Info::Foreign);
        let info = b"\x84\x18\x2a\xf4\x01\xf4";
        let holds = reads_accept(rt.alloc(), version, 0, info, said);
        expect(&rt, holds, &[version]);
    }
    expect_read(&rt, rt.alloc(), &FOREIGN_OFFERS);
}

const FOREIGN_OFFERS: [(&[u8], Said); 1] = [(
    b"\x82\x00\xa3\x0c\x00\x0d\x84\x18\x2a\xf4\x00\xf4\x0e\x9f\xff",
    Said::Propose(&[
        Offer {
            version: 12,
            info: Info::Foreign,
        },
        Offer {
            version: 13,
            info: Info::Known(VersionInfo {
                magic: 42,
                initiator_only: false,
                sharing: false,
                query: false,
            }),
        },
        Offer {
            version: 14,
            info: Info::Foreign,
        },
    ]),
)];

const INFOS: [&[u8]; 19] = [
    // too few, and too many
    b"\x83\x18\x2a\xf4\x01",
    b"\x85\x18\x2a\xf4\x01\xf4\x00",
    // the magic: too large, negative, a text, a flag
    b"\x84\x1b\x00\x00\x00\x01\x00\x00\x00\x00\xf4\x01\xf4",
    b"\x84\x20\xf4\x01\xf4",
    b"\x84\x61\x2a\xf4\x01\xf4",
    b"\x84\xf4\xf4\x01\xf4",
    // initiator only, peer sharing and query
    b"\x84\x18\x2a\x00\x01\xf4",
    b"\x84\x18\x2a\xf6\x01\xf4",
    b"\x84\x18\x2a\xf4\x02\xf4",
    b"\x84\x18\x2a\xf4\xf7\xf4",
    b"\x84\x18\x2a\xf4\x01\x00",
    // no definite array
    b"\x9f\x18\x2a\xf4\x01\xf4\xff",
    b"\x84\x18\x2a\xf4\x9f\xff\xf4",
    b"\xc1\x84\x18\x2a\xf4\x01\xf4",
    b"\xbf\xff",
    b"\xa0",
    b"\x80",
    b"\x18\x2a",
    b"\x60",
];

#[test]
fn what_breaks_a_rule_is_no_message(rt: HostRuntime) {
    for &bytes in &NO_MESSAGES {
        expect(&rt, reads(rt.alloc(), bytes, Said::Nothing), bytes);
    }
    // every proper front of a message
    for n in 0..PROPOSAL.len() {
        let front = &PROPOSAL[..n];
        expect(&rt, reads(rt.alloc(), front, Said::Nothing), front);
    }
}

const NO_MESSAGES: [&[u8]; 31] = [
    b"",
    b"\x00",
    b"\xff",
    b"\x82\x00",
    b"\x82\x00\xa0\x00",
    b"\x80",
    b"\x81\x00",
    b"\x82\x04\xa0",
    b"\x82\x20\xa0",
    b"\x83\x00\xa0\x00",
    b"\x82\x01\x0e",
    b"\x84\x01\x0e\x00\x00",
    // the message itself is definite
    b"\x9f\x00\xa0\xff",
    b"\x82\x00\xbf\xff",
    b"\x82\x00\xbf\x0e\x00\xff",
    b"\x82\x02\x9f\x00\x80\xff",
    b"\x82\x02\x83\x01\x0e\x7f\xff",
    // keys that do not rise, or are no numbers
    b"\x82\x00\xa2\x0e\x00\x0e\x00",
    b"\x82\x00\xa2\x0e\x00\x0d\x00",
    b"\x82\x03\xa3\x0c\x00\x0e\x00\x0d\x00",
    b"\x82\x00\xa1\x20\x00",
    b"\x82\x00\xa1\x60\x00",
    b"\x82\x00\x80",
    // other reasons
    b"\x82\x02\x82\x01\x80",
    b"\x82\x02\x82\x00\xa0",
    b"\x82\x02\x82\x00\x81\x20",
    b"\x82\x02\x83\x03\x0e\x60",
    b"\x82\x02\x83\x01\x0e\x40",
    b"\x82\x02\x83\x01\x0e\x61",
    // 2^63 entries and 2^64 - 1 versions are announced
    b"\x82\x00\xbb\x80\x00\x00\x00\x00\x00\x00\x00\x0d\x00",
    b"\x82\x02\x82\x00\x9b\xff\xff\xff\xff\xff\xff\xff\xff\x0d\x0e",
];

#[test]
fn a_message_has_sixty_four_levels_at_most(rt: HostRuntime) {
    assert!(rt; reads_accept(rt.alloc(), 14, 63, b"\0", FOREIGN));
    assert!(rt; reads_accept(rt.alloc(), 14, 64, b"\0", Said::Nothing));
}
