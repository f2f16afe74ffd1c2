use super::{expect, filled, is_written};
use mux_segment::{CutFault, Cutter, Fed, Header, frame, read_header, write_header};
use net_base::OutOfMemory;
use std::alloc::{AllocError, Global};
use std::mem;
use std::process::Abort;

// The side, the protocol and the body of an item.
type Given<'a> = (u8, u16, &'a [u8]);

// Whether these items and this fault were given.
fn gave(fed: &Fed, items: &[Given], fault: Option<CutFault>) -> bool {
    let given = fed.items.as_slice();
    fed.fault == fault
        && given.len() == items.len()
        && given.iter().zip(items).all(|(item, (side, id, body))| {
            item.side == *side && item.id == *id && item.body.as_slice() == *body
        })
}

// Takes a piece of a stream. Whether this is given.
fn takes(
    cutter: &mut Cutter,
    alloc: Global,
    bytes: &[u8],
    items: &[Given],
    fault: Option<CutFault>,
) -> bool {
    match mem::replace(cutter, Cutter::new(alloc)).feed(bytes) {
        Ok((next, fed)) => {
            *cutter = next;
            gave(&fed, items, fault)
        }
        Err(OutOfMemory) => false,
    }
}

// Whether a new cutter gives this for one piece.
fn gives(alloc: Global, bytes: &[u8], items: &[Given], fault: Option<CutFault>) -> bool {
    let mut cutter = Cutter::new(alloc);
    takes(&mut cutter, alloc, bytes, items, fault)
}

// Headers as their bytes, time, side, protocol and size.
const HEADERS: [([u8; 8], u32, u8, u16, u16); 4] = [
    ([0, 0, 0, 0, 0, 0, 0, 0x11], 0, 0, 0, 17),
    ([0, 0, 0, 0, 0x80, 0, 0, 9], 0, 1, 0, 9),
    ([1, 2, 3, 4, 0x80, 8, 0x30, 0], 0x0102_0304, 1, 8, 12_288),
    (
        [0xff, 0xff, 0xff, 0xff, 0x7f, 0xff, 0xff, 0xff],
        0xffff_ffff,
        0,
        32_767,
        65_535,
    ),
];

#[test]
fn headers_are_read_and_written(rt: HostRuntime) {
    for &(bytes, time, side, id, size) in &HEADERS {
        let header = Header {
            time,
            side,
            id,
            size,
        };
        assert!(rt; side <= 1 && id < 0x8000);
        expect(&rt, read_header(bytes) == header, &bytes);
        expect(&rt, write_header(&header) == bytes, &bytes);
    }
}

// Whether nothing is given for these bytes, one after another.
fn is_silent(cutter: &mut Cutter, alloc: Global, bytes: &[u8]) -> bool {
    for byte in bytes {
        if !takes(cutter, alloc, &[*byte], &[], None) {
            return false;
        }
    }
    true
}

#[test]
fn a_stream_byte_by_byte(rt: HostRuntime) {
    let front =
        b"\x00\x00\x00\x00\x00\x00\x00\x11\x82\x00\xa2\x0d\x84\x18\x2a\xf4\x01\xf4\x0e\x84\x18\x2a\xf4\x01";
    let item = b"\x82\x00\xa2\x0d\x84\x18\x2a\xf4\x01\xf4\x0e\x84\x18\x2a\xf4\x01\xf4";
    let mut cutter = Cutter::new(rt.alloc());
    assert!(rt; is_silent(&mut cutter, rt.alloc(), front));
    assert!(rt; takes(&mut cutter, rt.alloc(), b"\xf4", &[(0, 0, item)], None));
}

// Segments of several protocols and sides, one of them empty, and items over several segments.
const PIECES: [(&[u8], &[Given]); 3] = [
    (
        b"\0\0\0\x01\0\x08\0\x02\x82\x00\0\0\0\x02\x80\x08\0\x01\x82\0\0\0\x03\0\x08\0\0\0\0\0\x04\0\x0a\0\x03\x01\x02\x82",
        &[(0, 10, b"\x01"), (0, 10, b"\x02")],
    ),
    (
        b"\0\0\0\x05\x80\x08\0\x02\x03\x04\0\0\0\x06\0\x08\0\x03\x05\x06\x82\0\0",
        &[
            (1, 8, b"\x82\x03\x04"),
            (0, 8, b"\x82\x00\x05"),
            (0, 8, b"\x06"),
        ],
    ),
    (b"\0\x07\0\x08\0\x02\x07\x08", &[(0, 8, b"\x82\x07\x08")]),
];

#[test]
fn parts_wait_for_their_own_bytes(rt: HostRuntime) {
    let mut cutter = Cutter::new(rt.alloc());
    for &(bytes, items) in &PIECES {
        let holds = takes(&mut cutter, rt.alloc(), bytes, items, None);
        expect(&rt, holds, bytes);
    }
}

// A segment with one item that is whole.
const BEHIND: &[u8] = b"\0\0\0\0\0\x08\0\x01\x00";

// A segment with an item and the front of another, a segment that is a fault, and BEHIND.
const STOPPED: [(&[u8], CutFault); 6] = [
    // a protocol that is not known decides with no payload too, once its segment is whole
    (
        b"\0\0\0\0\0\x03\0\x02\x17\x82\0\0\0\0\0\x05\0\0\0\0\0\0\0\x08\0\x01\x00",
        CutFault::UnknownId,
    ),
    (
        b"\0\0\0\0\0\x03\0\x02\x17\x82\0\0\0\0\x80\x01\0\0\0\0\0\0\0\x08\0\x01\x00",
        CutFault::UnknownId,
    ),
    (
        b"\0\0\0\0\0\x03\0\x02\x17\x82\0\0\0\0\x7f\xff\0\x01\x00\0\0\0\0\0\x08\0\x01\x00",
        CutFault::UnknownId,
    ),
    (
        b"\0\0\0\0\0\x03\0\x02\x17\x82\0\0\0\0\0\x08\0\x01\xff\0\0\0\0\0\x08\0\x01\x00",
        CutFault::Bad,
    ),
    (
        b"\0\0\0\0\0\x03\0\x02\x17\x82\0\0\0\0\0\x08\0\x02\x81\x1c\0\0\0\0\0\x08\0\x01\x00",
        CutFault::Bad,
    ),
    (
        b"\0\0\0\0\0\x03\0\x02\x17\x82\0\0\0\0\0\x08\0\x02\x5f\x19\0\0\0\0\0\x08\0\x01\x00",
        CutFault::Bad,
    ),
];

#[test]
fn a_fault_ends_the_stream(rt: HostRuntime) {
    for &(bytes, fault) in &STOPPED {
        let mut cutter = Cutter::new(rt.alloc());
        let first = takes(
            &mut cutter,
            rt.alloc(),
            bytes,
            &[(0, 3, b"\x17")],
            Some(fault),
        );
        expect(&rt, first, bytes);
        let holds = takes(&mut cutter, rt.alloc(), BEHIND, &[], Some(fault));
        expect(&rt, holds, bytes);
    }
    // what is whole before the fault in its segment is given
    let bytes = b"\0\0\0\0\x80\x08\0\x03\x05\xff\x06";
    assert!(rt; gives(rt.alloc(), bytes, &[(1, 8, b"\x05")], Some(CutFault::Bad)));
    assert!(rt; gives(rt.alloc(), b"\0\0\0\0\0\x05\0\x01", &[], None));
}

// A long segment: its protocol, its header and the front of its payload, how often which byte stands behind them, and
// what stands behind that. Whether a new cutter gives the payload as an item, and the fault.
type Long<'a> = (u16, &'a [u8], (usize, u8), &'a [u8], bool, Option<CutFault>);

// Whether a new cutter gives the payload of a segment as an item, or nothing, and the fault.
fn gives_payload(
    alloc: Global,
    id: u16,
    stream: &[u8],
    given: bool,
    fault: Option<CutFault>,
) -> bool {
    match stream.get(8..) {
        Some(payload) if given => gives(alloc, stream, &[(0, id, payload)], fault),
        _ => gives(alloc, stream, &[], fault),
    }
}

fn expect_long(rt: &impl Abort, alloc: Global, rows: &[Long]) {
    for (id, front, middle, behind, given, fault) in rows {
        let holds = match filled(alloc, *front, *middle, *behind) {
            Ok(stream) => gives_payload(alloc, *id, &stream, *given, *fault),
            Err(_) => false,
        };
        expect(rt, holds, *front);
    }
}

#[test]
fn too_many_levels_are_a_fault(rt: HostRuntime) {
    expect_long(&rt, rt.alloc(), &NESTED);
}

const NESTED: [Long; 2] = [
    (
        2,
        b"\0\0\0\0\0\x02\0\x41",
        (65, 0x81),
        b"",
        false,
        Some(CutFault::Deep),
    ),
    (2, b"\0\0\0\0\0\x02\0\x41", (64, 0x81), b"\0", true, None),
];

// An item may have 5,760 bytes while shaking hands, and a part that is not whole fewer.
#[test]
fn the_limit_of_a_handshake(rt: HostRuntime) {
    expect_long(&rt, rt.alloc(), &GREETINGS);
}

const GREETINGS: [Long; 5] = [
    (
        0,
        b"\0\0\0\0\0\0\x16\x80\x59\x16\x7d",
        (5757, 0),
        b"",
        true,
        None,
    ),
    (
        0,
        b"\0\0\0\0\0\0\x16\x81\x59\x16\x7e",
        (5758, 0),
        b"",
        false,
        Some(CutFault::TooLong),
    ),
    (
        0,
        b"\0\0\0\0\0\0\x16\x7f\x59\x16\x7d",
        (5756, 0),
        b"",
        false,
        None,
    ),
    (
        0,
        b"\0\0\0\0\0\0\x16\x80\x59\x16\x7e",
        (5757, 0),
        b"",
        false,
        Some(CutFault::TooLong),
    ),
    // the front of an array to a break, with more bytes than that, and what is no head: the bytes behind the limit are
    // scanned too
    (
        0,
        b"\0\0\0\0\0\0\x17\x71\x9f",
        (5999, 0),
        b"\x1c",
        false,
        Some(CutFault::Bad),
    ),
];

// Other items may have 65,535 bytes, so the longest comes in two segments.
#[test]
fn the_limit_of_the_other_protocols(rt: HostRuntime) {
    expect_long(&rt, rt.alloc(), &TOO_LONG);
    assert!(rt; matches!(gives_the_longest(rt.alloc()), Ok(true)));
}

const TOO_LONG: [Long; 1] = [(
    4,
    b"\0\0\0\0\0\x04\xff\xff\x59\xff\xfd",
    (65_532, 0),
    b"",
    false,
    Some(CutFault::TooLong),
)];

// Whether the longest item is given at last, in two segments.
fn gives_the_longest(alloc: Global) -> Result<bool, AllocError> {
    let front = b"\0\0\0\0\0\x04\xff\xfe\x59\xff\xfc";
    let first = filled(alloc, front, (65_531, 0), b"")?;
    let item = filled(alloc, b"\x59\xff\xfc", (65_532, 0), b"")?;
    Ok(gives_at_last(alloc, &first, &item))
}

// Whether nothing is given before the last byte of an item, and the item then.
fn gives_at_last(alloc: Global, first: &[u8], item: &[u8]) -> bool {
    let mut cutter = Cutter::new(alloc);
    let last = b"\0\0\0\0\0\x04\0\x01\0";
    takes(&mut cutter, alloc, first, &[], None)
        && takes(&mut cutter, alloc, last, &[(0, 4, item)], None)
}

// Payloads as side, protocol, moment and bytes, and their segments.
const FRAMED: [(u8, u16, u64, &[u8], &[u8]); 4] = [
    (
        1,
        0,
        0,
        b"\x83\x01\x19\x18\x21\x82\x18\x2a\xf4",
        b"\0\0\0\0\x80\0\0\x09\x83\x01\x19\x18\x21\x82\x18\x2a\xf4",
    ),
    (0, 8, 1, b"\x81\x02", b"\0\0\x03\xe8\0\x08\0\x02\x81\x02"),
    // 4,294,968,000 microseconds are 704 more than 2^32
    (0, 10, 4_294_968, b"", b"\0\0\x02\xc0\0\x0a\0\0"),
    (1, 32_767, u64::MAX, b"", b"\xff\xff\xfc\x18\xff\xff\0\0"),
];

#[test]
fn payloads_are_framed(rt: HostRuntime) {
    for &(side, id, now, payload, bytes) in &FRAMED {
        assert!(rt; side <= 1 && id < 0x8000);
        let framed = frame(rt.alloc(), side, id, now, payload);
        expect(&rt, is_written(framed, bytes), bytes);
    }
}

// Whether so many bytes are framed in a segment with 12,288 of them and these segments behind it.
fn is_cut(alloc: Global, count: usize, behind: &[u8]) -> Result<bool, AllocError> {
    let payload = filled(alloc, b"", (count, 7), b"")?;
    let segments = filled(alloc, b"\0\0\0\0\x80\x03\x30\0", (12_288, 7), behind)?;
    Ok(is_written(frame(alloc, 1, 3, 0, &payload), &segments))
}

// Whether a payload is cut behind 12,288 bytes, and again behind as many.
fn is_cut_twice(alloc: Global) -> Result<bool, AllocError> {
    let second = filled(alloc, b"\0\0\0\0\x80\x03\x30\0", (12_288, 7), b"")?;
    is_cut(alloc, 24_576, &second)
}

// A long payload is cut behind 12,288 bytes.
#[test]
fn long_payloads_are_several_segments(rt: HostRuntime) {
    assert!(rt; matches!(is_cut(rt.alloc(), 12_288, b""), Ok(true)));
    assert!(rt;
        matches!(
            is_cut(rt.alloc(), 12_289, b"\0\0\0\0\x80\x03\0\x01\x07"),
            Ok(true)
        )
    );
    assert!(rt; matches!(is_cut_twice(rt.alloc()), Ok(true)));
}

// Whether what a cutter sees as the first item has this body. None is empty.
fn sees(cutter: &Cutter, bytes: &[u8], body: &[u8]) -> bool {
    match cutter.first(bytes) {
        Some(item) => item.body == body,
        None => body.is_empty(),
    }
}

// A segment, and the body of the item that is seen at its front.
const SEEN: [(&[u8], &[u8]); 5] = [
    (b"\0\0\0\0\0\x02\0\x02\x01\x02", b"\x01"),
    (b"\0\0\0\0\x80\x08\0\x04\x82\x01\x02\x03", b"\x82\x01\x02"),
    (b"\0\0\0\0\0\x01\0\x01\x01", b""),
    (b"\0\0\0\0\0\x02\0\x01\xff", b""),
    (b"\0\0\0\0\0\x02\0\x02\x82\x01", b""),
];

// The first item is seen where it stands at the front of the first segment, and nothing waits before it.
#[test]
fn the_first_item_is_seen(rt: HostRuntime) {
    let mut cutter = Cutter::new(rt.alloc());
    for &(bytes, body) in &SEEN {
        expect(&rt, sees(&cutter, bytes, body), bytes);
    }
    assert!(rt; takes(&mut cutter, rt.alloc(), b"\x00", &[], None));
    assert!(rt; sees(&cutter, b"\0\0\0\0\0\x02\0\x01\x01", b""));
}
