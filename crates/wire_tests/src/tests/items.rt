ghost use Rattle.std.specs.Prelude.{◌≡◌, ◌<◌, ◌≤◌, length};

use super::{expect, filled};
use cbor_items::{
    ARRAY, Absent, Head, ItemScan, Scan, TEXT, first_item, read_head, split_definite, split_number,
    write_head,
};
use net_base::Octets;
use std::alloc::Global;
use std::process::Abort;

// Whether this is found at the front of the bytes.
fn is_found(bytes: &[u8], found: Scan) -> bool {
    first_item(bytes) == found
}

// Whether every proper front of an item goes on.
fn fronts_go_on(item: &[u8]) -> bool {
    for n in 0..item.len() {
        if !is_found(&item[..n], Scan::More) {
            return false;
        }
    }
    true
}

// Each is an item, and no front of it is.
#[test]
fn every_whole_item_is_found(rt: HostRuntime) {
    for &item in &WHOLE_ITEMS {
        expect(&rt, is_found(item, Scan::Whole(item.len())), item);
        expect(&rt, fronts_go_on(item), item);
    }
}

// This is found at the front of each.
fn expect_each(rt: &impl Abort, items: &[&[u8]], found: Scan) {
    for bytes in items {
        expect(rt, is_found(*bytes, found), *bytes);
    }
}

#[test]
fn what_is_cut_goes_on(rt: HostRuntime) {
    expect_each(&rt, &CUT_ITEMS, Scan::More);
}

#[test]
fn what_is_not_well_formed_is_bad(rt: HostRuntime) {
    expect_each(&rt, &NO_ITEMS, Scan::Bad);
}

// What is found at the front of each.
fn expect_found(rt: &impl Abort, rows: &[(&[u8], Scan)]) {
    for (bytes, found) in rows {
        expect(rt, is_found(*bytes, *found), *bytes);
    }
}

const FOLLOWED: [(&[u8], Scan); 7] = [
    (b"", Scan::More),
    (b"\x82\x00", Scan::More),
    (b"\x82\x00\x05\xff", Scan::Whole(3)),
    (b"\x5f\x41\x00\x41\x61\xff", Scan::Whole(6)),
    (b"\xbf\x00\x01\xff", Scan::Whole(4)),
    (b"\xf8\x20", Scan::Whole(2)),
    (b"\x5f\x61\x61\xff", Scan::Bad),
];

#[test]
fn what_follows_an_item_is_not_looked_at(rt: HostRuntime) {
    expect_found(&rt, &FOLLOWED);
}

// What is seen at the first byte of a head decides there.
const FIRST_BYTES: [(&[u8], Scan); 3] = [
    (b"\x5f\x19", Scan::Bad),
    (b"\x5f\x5f", Scan::Bad),
    (b"\xf8", Scan::More),
];

#[test]
fn the_first_byte_of_a_head_decides(rt: HostRuntime) {
    expect_found(&rt, &FIRST_BYTES);
}

// An array that announces 2^63 elements, a map of 2^64 - 1 entries and a string of as many bytes, of which few
// are there.
const ANNOUNCED: [(&[u8], Scan); 4] = [
    (b"\x9b\x80\x00\x00\x00\x00\x00\x00\x00\x01\x02", Scan::More),
    (
        b"\xbb\xff\xff\xff\xff\xff\xff\xff\xff\x01\x02\x03",
        Scan::More,
    ),
    (b"\x5b\xff\xff\xff\xff\xff\xff\xff\xff\x01", Scan::More),
    (b"\x9b\x80\x00\x00\x00\x00\x00\x00\x00\x01\xff", Scan::Bad),
];

#[test]
fn what_is_announced_need_not_come(rt: HostRuntime) {
    expect_found(&rt, &ANNOUNCED);
}

// Whether the first bytes go on, and this is found at all of them then.
fn goes_on_to(alloc: Global, bytes: &[u8], first: usize, found: Scan) -> bool
    requires { first ≤ length bytes.now }
{
    let mut scan = ItemScan::new(alloc);
    let before = scan.resume(&bytes[..first]);
    let after = scan.resume(bytes);
    before == Ok(Scan::More) && after == Ok(found)
}

const RESUMED: [(&[u8], usize, Scan); 8] = [
    (b"\x82\x01\x82\x02\x03", 3, Scan::Whole(5)),
    (b"\xa2\x01\x02\x03\xc1\x05", 3, Scan::Whole(6)),
    (b"\xbf\x61a\x01\xff", 3, Scan::Whole(5)),
    (b"\xbf\x61a\xff", 3, Scan::Bad),
    (b"\x9f\x19\x01\x02\xff", 3, Scan::Whole(5)),
    (b"\x5f\x42\x01\x02\x41\x03\xff", 5, Scan::Whole(7)),
    (b"\x7f\x61a\x41\x03\xff", 3, Scan::Bad),
    (b"\x43\x01\x02\x03", 2, Scan::Whole(4)),
];

#[test]
fn a_scan_goes_on(rt: HostRuntime) {
    for &(bytes, first, found) in &RESUMED {
        assert!(rt; first <= bytes.len());
        expect(&rt, goes_on_to(rt.alloc(), bytes, first, found), bytes);
    }
}

// Whether this is found at the front of so many arrays inside each other around some bytes.
fn is_found_in_levels(alloc: Global, levels: usize, inner: &[u8], found: Scan) -> bool {
    match filled(alloc, b"", (levels, 0x81), inner) {
        Ok(item) => is_found(&item, found),
        Err(_) => false,
    }
}

const LEVELS: [(usize, &[u8], Scan); 8] = [
    (64, b"\x00", Scan::Whole(65)),
    (65, b"", Scan::Deep),
    // an empty array, and the first byte of one of many elements
    (64, b"\x80", Scan::Deep),
    (64, b"\x9b", Scan::Deep),
    (64, b"\xc0", Scan::Deep),
    // what is no head, before what is too deep
    (64, b"\x9c", Scan::Bad),
    // an indefinite string is no level
    (64, b"\x5f\x41\x00\xff", Scan::Whole(68)),
    (1000, b"\x00", Scan::Deep),
];

#[test]
fn sixty_four_levels_are_the_most(rt: HostRuntime) {
    for &(levels, inner, found) in &LEVELS {
        let holds = is_found_in_levels(rt.alloc(), levels, inner, found);
        expect(&rt, holds, inner);
    }
}

fn is_head(bytes: &[u8], head: Option<Head>) -> bool {
    read_head(bytes) == head
}

// Whether this head stands at the front of the bytes.
fn is_definite(bytes: &[u8], major: u8, value: u64, size: usize) -> bool {
    let head = Head {
        major,
        value,
        indefinite: false,
        size,
    };
    is_head(bytes, Some(head))
}

fn is_indefinite(initial: u8, major: u8) -> bool {
    let head = Head {
        major,
        value: 0,
        indefinite: true,
        size: 1,
    };
    is_head(&[initial, 0], Some(head))
}

// Heads as major type, value and size.
const HEADS: [(&[u8], u8, u64, usize); 7] = [
    (b"\x17", 0, 23, 1),
    (b"\x18\x18\x00", 0, 24, 2),
    (b"\x39\x03\xe7", 1, 999, 3),
    (b"\x9a\x00\x0f\x42\x40\xff", 4, 1_000_000, 5),
    (
        b"\x1b\x00\x00\x00\xe8\xd4\xa5\x10\x00",
        0,
        1_000_000_000_000,
        9,
    ),
    // wider than need be
    (b"\x59\x00\x01\x07", 2, 1, 3),
    (b"\xf8\x20", 7, 32, 2),
];

const INDEFINITE_HEADS: [(u8, u8); 5] = [(0x5f, 2), (0x7f, 3), (0x9f, 4), (0xbf, 5), (0xff, 7)];

#[test]
fn heads_of_every_width_are_read(rt: HostRuntime) {
    for &(bytes, major, value, size) in &HEADS {
        expect(&rt, is_definite(bytes, major, value, size), bytes);
    }
    for &(initial, major) in &INDEFINITE_HEADS {
        expect(&rt, is_indefinite(initial, major), &[initial]);
    }
}

const NO_HEADS: [&[u8]; 12] = [
    b"",
    b"\x18",
    b"\x19\x01",
    b"\x1a\x01\x02\x03",
    b"\x1b\x01\x02\x03\x04\x05\x06\x07",
    b"\x1c\x00",
    b"\x3d\x00",
    b"\xfe\x00",
    b"\x1f\x00",
    b"\x3f\x00",
    b"\xdf\x00",
    b"\xf8\x1f",
];

#[test]
fn no_head_is_read_where_none_is_whole(rt: HostRuntime) {
    for &bytes in &NO_HEADS {
        expect(&rt, is_head(bytes, None), bytes);
    }
}

// Whether this number is split off the bytes.
fn is_number(bytes: &[u8], wanted: Result<(u64, &[u8]), Absent>) -> bool {
    split_number(bytes) == wanted
}

// Whether this length of such an item is split off the bytes.
fn is_length(major: u8, bytes: &[u8], wanted: Result<(u64, &[u8]), Absent>) -> bool {
    split_definite(major, bytes) == wanted
}

// Examples of RFC 8949, appendix A.
#[test]
fn numbers_and_lengths_stand_at_the_front(rt: HostRuntime) {
    assert!(rt; is_number(b"\x1a\x00\x0f\x42\x40\x01", Ok((1_000_000, b"\x01"))));
    assert!(rt; is_number(b"\x38\x63", Err(Absent)));
    assert!(rt; is_length(TEXT, b"\x64IETF", Ok((4, b"IETF"))));
    assert!(rt; is_length(ARRAY, b"\x9f\xff", Err(Absent)));
}

// Whether this is the head that is written behind a byte.
fn is_written_behind(alloc: Global, major: u8, value: u64, spelled: &[u8]) -> bool
    requires major { major ≤ 7 }
    requires simple { major ≡ 7 → value < 24 }
{
    let Ok(mut out) = Octets::from_slice(alloc, &[0xaa]) else {
        return false;
    };
    write_head(&mut out, major, value).is_ok()
        && out.as_slice().split_first() == Some((&0xaa, spelled))
}

const SHORTEST: [(u8, u64, &[u8]); 12] = [
    (0, 0, b"\x00"),
    (0, 23, b"\x17"),
    (0, 24, b"\x18\x18"),
    (1, 255, b"\x38\xff"),
    (2, 256, b"\x59\x01\x00"),
    (3, 65_535, b"\x79\xff\xff"),
    (4, 65_536, b"\x9a\x00\x01\x00\x00"),
    (5, 0xffff_ffff, b"\xba\xff\xff\xff\xff"),
    (6, 0x1_0000_0000, b"\xdb\x00\x00\x00\x01\x00\x00\x00\x00"),
    (0, u64::MAX, b"\x1b\xff\xff\xff\xff\xff\xff\xff\xff"),
    (7, 20, b"\xf4"),
    (7, 23, b"\xf7"),
];

#[test]
fn the_shortest_head_is_written(rt: HostRuntime) {
    for &(major, value, spelled) in &SHORTEST {
        assert!(rt; major <= 7 && (major != 7 || value < 24));
        let holds = is_written_behind(rt.alloc(), major, value, spelled);
        expect(&rt, holds, spelled);
        let holds = is_definite(spelled, major, value, spelled.len());
        expect(&rt, holds, spelled);
    }
}

// RFC 8949, appendix A: well-formed items.
const WHOLE_ITEMS: [&[u8]; 81] = [
    b"\x00",
    b"\x01",
    b"\x0a",
    b"\x17",
    b"\x18\x18",
    b"\x18\x19",
    b"\x18\x64",
    b"\x19\x03\xe8",
    b"\x1a\x00\x0f\x42\x40",
    b"\x1b\x00\x00\x00\xe8\xd4\xa5\x10\x00",
    b"\x1b\xff\xff\xff\xff\xff\xff\xff\xff",
    b"\xc2\x49\x01\x00\x00\x00\x00\x00\x00\x00\x00",
    b"\x3b\xff\xff\xff\xff\xff\xff\xff\xff",
    b"\xc3\x49\x01\x00\x00\x00\x00\x00\x00\x00\x00",
    b"\x20",
    b"\x29",
    b"\x38\x63",
    b"\x39\x03\xe7",
    b"\xf9\x00\x00",
    b"\xf9\x80\x00",
    b"\xf9\x3c\x00",
    b"\xfb\x3f\xf1\x99\x99\x99\x99\x99\x9a",
    b"\xf9\x3e\x00",
    b"\xf9\x7b\xff",
    b"\xfa\x47\xc3\x50\x00",
    b"\xfa\x7f\x7f\xff\xff",
    b"\xfb\x7e\x37\xe4\x3c\x88\x00\x75\x9c",
    b"\xf9\x00\x01",
    b"\xf9\x04\x00",
    b"\xf9\xc4\x00",
    b"\xfb\xc0\x10\x66\x66\x66\x66\x66\x66",
    b"\xf9\x7c\x00",
    b"\xf9\x7e\x00",
    b"\xf9\xfc\x00",
    b"\xfa\x7f\x80\x00\x00",
    b"\xfa\x7f\xc0\x00\x00",
    b"\xfa\xff\x80\x00\x00",
    b"\xfb\x7f\xf0\x00\x00\x00\x00\x00\x00",
    b"\xfb\x7f\xf8\x00\x00\x00\x00\x00\x00",
    b"\xfb\xff\xf0\x00\x00\x00\x00\x00\x00",
    b"\xf4",
    b"\xf5",
    b"\xf6",
    b"\xf7",
    b"\xf0",
    b"\xf8\xff",
    b"\xc0\x74\x32\x30\x31\x33\x2d\x30\x33\x2d\x32\x31\x54\x32\x30\x3a\x30\x34\x3a\x30\x30\x5a",
    b"\xc1\x1a\x51\x4b\x67\xb0",
    b"\xc1\xfb\x41\xd4\x52\xd9\xec\x20\x00\x00",
    b"\xd7\x44\x01\x02\x03\x04",
    b"\xd8\x18\x45\x64\x49\x45\x54\x46",
    b"\xd8\x20\x76\x68\x74\x74\x70\x3a\x2f\x2f\x77\x77\x77\x2e\x65\x78\x61\x6d\x70\x6c\x65\x2e\x63\x6f\x6d",
    b"\x40",
    b"\x44\x01\x02\x03\x04",
    b"\x60",
    b"\x61\x61",
    b"\x64\x49\x45\x54\x46",
    b"\x62\x22\x5c",
    b"\x62\xc3\xbc",
    b"\x63\xe6\xb0\xb4",
    b"\x64\xf0\x90\x85\x91",
    b"\x80",
    b"\x83\x01\x02\x03",
    b"\x83\x01\x82\x02\x03\x82\x04\x05",
    b"\x98\x19\x01\x02\x03\x04\x05\x06\x07\x08\x09\x0a\x0b\x0c\x0d\x0e\x0f\x10\x11\x12\x13\x14\x15\x16\x17\x18\x18\x18\x19",
    b"\xa0",
    b"\xa2\x01\x02\x03\x04",
    b"\xa2\x61\x61\x01\x61\x62\x82\x02\x03",
    b"\x82\x61\x61\xa1\x61\x62\x61\x63",
    b"\xa5\x61\x61\x61\x41\x61\x62\x61\x42\x61\x63\x61\x43\x61\x64\x61\x44\x61\x65\x61\x45",
    b"\x5f\x42\x01\x02\x43\x03\x04\x05\xff",
    b"\x7f\x65\x73\x74\x72\x65\x61\x64\x6d\x69\x6e\x67\xff",
    b"\x9f\xff",
    b"\x9f\x01\x82\x02\x03\x9f\x04\x05\xff\xff",
    b"\x9f\x01\x82\x02\x03\x82\x04\x05\xff",
    b"\x83\x01\x82\x02\x03\x9f\x04\x05\xff",
    b"\x83\x01\x9f\x02\x03\xff\x82\x04\x05",
    b"\x9f\x01\x02\x03\x04\x05\x06\x07\x08\x09\x0a\x0b\x0c\x0d\x0e\x0f\x10\x11\x12\x13\x14\x15\x16\x17\x18\x18\x18\x19\xff",
    b"\xbf\x61\x61\x01\x61\x62\x9f\x02\x03\xff\xff",
    b"\x82\x61\x61\xbf\x61\x62\x61\x63\xff",
    b"\xbf\x63\x46\x75\x6e\xf5\x63\x41\x6d\x74\x21\xff",
];

// RFC 8949, appendix F: what ends too early.
const CUT_ITEMS: [&[u8]; 42] = [
    b"\x18",
    b"\x19",
    b"\x1a",
    b"\x1b",
    b"\x19\x01",
    b"\x1a\x01\x02",
    b"\x1b\x01\x02\x03\x04\x05\x06\x07",
    b"\x38",
    b"\x58",
    b"\x78",
    b"\x98",
    b"\x9a\x01\xff\x00",
    b"\xb8",
    b"\xd8",
    b"\xf8",
    b"\xf9\x00",
    b"\xfa\x00\x00",
    b"\xfb\x00\x00\x00",
    b"\x41",
    b"\x61",
    b"\x5a\xff\xff\xff\xff\x00",
    b"\x5b\xff\xff\xff\xff\xff\xff\xff\xff\x01\x02\x03",
    b"\x7a\xff\xff\xff\xff\x00",
    b"\x7b\x7f\xff\xff\xff\xff\xff\xff\xff\x01\x02\x03",
    b"\x81",
    b"\x81\x81\x81\x81\x81\x81\x81\x81\x81",
    b"\x82\x00",
    b"\xa1",
    b"\xa2\x01\x02",
    b"\xa1\x00",
    b"\xa2\x00\x00\x00",
    b"\xc0",
    b"\x5f\x41\x00",
    b"\x7f\x61\x00",
    b"\x9f",
    b"\x9f\x01\x02",
    b"\xbf",
    b"\xbf\x01\x02\x01\x02",
    b"\x81\x9f",
    b"\x9f\x80\x00",
    b"\x9f\x9f\x9f\x9f\x9f\xff\xff\xff\xff",
    b"\x9f\x81\x9f\x81\x9f\x9f\xff\xff\xff",
];

// RFC 8949, appendix F: what is not well-formed for another cause.
const NO_ITEMS: [&[u8]; 52] = [
    b"\x1c",
    b"\x1d",
    b"\x1e",
    b"\x3c",
    b"\x3d",
    b"\x3e",
    b"\x5c",
    b"\x5d",
    b"\x5e",
    b"\x7c",
    b"\x7d",
    b"\x7e",
    b"\x9c",
    b"\x9d",
    b"\x9e",
    b"\xbc",
    b"\xbd",
    b"\xbe",
    b"\xdc",
    b"\xdd",
    b"\xde",
    b"\xfc",
    b"\xfd",
    b"\xfe",
    b"\xf8\x00",
    b"\xf8\x01",
    b"\xf8\x18",
    b"\xf8\x1f",
    b"\x5f\x00\xff",
    b"\x5f\x21\xff",
    b"\x5f\x61\x00\xff",
    b"\x5f\x80\xff",
    b"\x5f\xa0\xff",
    b"\x5f\xc0\x00\xff",
    b"\x5f\xe0\xff",
    b"\x7f\x41\x00\xff",
    b"\x5f\x5f\x41\x00\xff\xff",
    b"\x7f\x7f\x61\x00\xff\xff",
    b"\xff",
    b"\x81\xff",
    b"\x82\x00\xff",
    b"\xa1\xff",
    b"\xa1\xff\x00",
    b"\xa1\x00\xff",
    b"\xa2\x00\x00\xff",
    b"\x9f\x81\xff",
    b"\x9f\x82\x9f\x81\x9f\x9f\xff\xff\xff\xff",
    b"\xbf\x00\xff",
    b"\xbf\x00\x00\x00\xff",
    b"\x1f",
    b"\x3f",
    b"\xdf",
];
