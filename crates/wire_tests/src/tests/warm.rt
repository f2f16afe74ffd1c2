use super::{expect, filled, is_written};
use cbor_items::{Scan, first_item};
use net_base::{Addr, Ip, OutOfMemory};
use std::alloc::Global;
use warm_messages::{
    Alive, Share, first_number, item_number, read_alive, read_share, write_alive, write_peers,
    write_request,
};

const ALIVE: [(&[u8], Alive); 9] = [
    (b"\x82\x00\x05", Alive::Ask(5)),
    (b"\x82\x01\x07", Alive::Reply(7)),
    (b"\x81\x02", Alive::Done),
    // to a break
    (b"\x9f\x00\x05\xff", Alive::Ask(5)),
    (b"\x9f\x02\xff", Alive::Done),
    // wider heads than need be
    (b"\x98\x02\x18\x01\x19\x00\x07", Alive::Reply(7)),
    (
        b"\x9b\x00\x00\x00\x00\x00\x00\x00\x01\x1a\x00\x00\x00\x02",
        Alive::Done,
    ),
    (b"\x82\x00\x19\xff\xff", Alive::Ask(65_535)),
    (
        b"\x82\x01\x1b\x00\x00\x00\x00\x00\x00\xff\xff",
        Alive::Reply(65_535),
    ),
];

const NO_ALIVE: [&[u8]; 21] = [
    b"",
    b"\x05",
    b"\x80",
    b"\x9f\xff",
    b"\x82\x00",
    b"\x81\x00",
    b"\x82\x02\x00",
    b"\x81\x03",
    b"\x82\x03\x05",
    b"\x83\x00\x05\x05",
    // no cookie
    b"\x82\x00\x1a\x00\x01\x00\x00",
    b"\x82\x01\x20",
    b"\x82\x00\x41\x05",
    b"\x82\x00\x81\x05",
    // something follows, or is missing
    b"\x82\x00\x05\x00",
    b"\x9f\x00\x05\xff\xff",
    b"\x9f\x00\x05",
    // a map, a tag, and an array of 2^63 elements
    b"\xa1\x00\x05",
    b"\xc1\x82\x00\x05",
    b"\x9b\x80\x00\x00\x00\x00\x00\x00\x00\x00\x05",
    b"\x9f\x00\x00\x00\x00\x00\x00\x00\x00\x00\x00\xff",
];

fn is_alive(bytes: &[u8], wanted: Option<Alive>) -> bool {
    read_alive(bytes) == wanted
}

#[test]
fn keep_alive_is_read_and_written(rt: HostRuntime) {
    for &(bytes, message) in &ALIVE {
        expect(&rt, is_alive(bytes, Some(message)), bytes);
    }
    for &bytes in &NO_ALIVE {
        expect(&rt, is_alive(bytes, None), bytes);
    }
    let written: [(Alive, &[u8]); 5] = [
        (Alive::Ask(5), b"\x82\x00\x05"),
        (Alive::Ask(65_535), b"\x82\x00\x19\xff\xff"),
        (Alive::Reply(23), b"\x82\x01\x17"),
        (Alive::Reply(24), b"\x82\x01\x18\x18"),
        (Alive::Done, b"\x81\x02"),
    ];
    for (message, bytes) in written {
        let holds = is_written(write_alive(rt.alloc(), &message), bytes);
        expect(&rt, holds, bytes);
    }
}

// What a message of peer sharing says.
#[derive(Clone, Copy)]
enum Said<'a> {
    Request(u64),
    Peers(&'a [Addr]),
    Done,
    // there is no message
    Nothing,
}

fn is_said(share: &Option<Share>, said: Said) -> bool {
    match (share, said) {
        (Some(Share::Request(asked)), Said::Request(number)) => *asked == number,
        (Some(Share::Peers(peers)), Said::Peers(addrs)) => peers.as_slice() == addrs,
        (Some(Share::Done), Said::Done) | (None, Said::Nothing) => true,
        _ => false,
    }
}

// Whether bytes are read so.
fn is_read(alloc: Global, bytes: &[u8], said: Said) -> bool {
    match read_share(alloc, bytes) {
        Ok(share) => is_said(&share, said),
        Err(OutOfMemory) => false,
    }
}

#[test]
fn requests_are_read_and_written(rt: HostRuntime) {
    let rows: [(&[u8], u64); 4] = [
        (b"\x82\x00\x02", 2),
        (b"\x82\x00\x18\x64", 100),
        (b"\x82\x00\x00", 0),
        (b"\x82\x00\x1b\xff\xff\xff\xff\xff\xff\xff\xff", u64::MAX),
    ];
    for (bytes, number) in rows {
        let holds = is_read(rt.alloc(), bytes, Said::Request(number));
        expect(&rt, holds, bytes);
        let holds = is_written(write_request(rt.alloc(), number), bytes);
        expect(&rt, holds, bytes);
    }
    let to_break = b"\x9f\x18\x00\x05\xff";
    assert!(rt; is_read(rt.alloc(), to_break, Said::Request(5)));
    assert!(rt; is_read(rt.alloc(), b"\x81\x02", Said::Done));
}

const LOOPBACK: [Addr; 2] = [
    Addr {
        ip: Ip::V4(0x7f00_0001),
        port: 3001,
    },
    Addr {
        ip: Ip::V4(0x7f00_0001),
        port: 3005,
    },
];

// 2001:db8::1:2
const DOCUMENTED: [Addr; 1] = [Addr {
    ip: Ip::V6(0x2001_0db8_0000_0000_0000_0000_0001_0002),
    port: 3001,
}];

const MIXED: [Addr; 2] = [
    Addr {
        ip: Ip::V6(1),
        port: 3001,
    },
    Addr {
        ip: Ip::V4(u32::MAX),
        port: 65_535,
    },
];

#[test]
fn addresses_are_read_and_written(rt: HostRuntime) {
    let written: [(&[u8], &[Addr]); 4] = [
        (b"\x82\x01\x80", &[]),
        (
            b"\x82\x01\x82\x83\x00\x1a\x7f\x00\x00\x01\x19\x0b\xb9\x83\x00\x1a\x7f\x00\x00\x01\x19\x0b\xbd",
            &LOOPBACK,
        ),
        (
            b"\x82\x01\x81\x86\x01\x1a\x20\x01\x0d\xb8\x00\x00\x1a\x00\x01\x00\x02\x19\x0b\xb9",
            &DOCUMENTED,
        ),
        (
            b"\x82\x01\x82\x86\x01\x00\x00\x00\x01\x19\x0b\xb9\x83\x00\x1a\xff\xff\xff\xff\x19\xff\xff",
            &MIXED,
        ),
    ];
    for (bytes, addrs) in written {
        expect(&rt, is_read(rt.alloc(), bytes, Said::Peers(addrs)), bytes);
        let holds = is_written(write_peers(rt.alloc(), addrs), bytes);
        expect(&rt, holds, bytes);
    }
    let others: [(&[u8], &[Addr]); 3] = [
        // eight elements, of which two are passed over
        (
            b"\x82\x01\x81\x88\x01\x1a\x20\x01\x0d\xb8\x00\x00\x1a\x00\x01\x00\x02\x18\x63\x1b\xff\xff\xff\xff\xff\xff\xff\xff\x19\x0b\xb9",
            &DOCUMENTED,
        ),
        // every array to a break
        (
            b"\x9f\x01\x9f\x9f\x00\x1a\x7f\x00\x00\x01\x19\x0b\xb9\xff\x9f\x18\x00\x1a\x7f\x00\x00\x01\x1a\x00\x00\x0b\xbd\xff\xff\xff",
            &LOOPBACK,
        ),
        (b"\x82\x01\x9f\xff", &[]),
    ];
    for (bytes, addrs) in others {
        expect(&rt, is_read(rt.alloc(), bytes, Said::Peers(addrs)), bytes);
    }
}

const NO_SHARES: [&[u8]; 24] = [
    b"",
    b"\x80",
    b"\x81\x00",
    b"\x81\x01",
    b"\x82\x00\x20",
    b"\x82\x01\x00",
    b"\x82\x02\x80",
    b"\x83\x01\x80\x00",
    b"\x82\x01\xa0",
    b"\x82\x18\x03\x80",
    // something follows, or is missing
    b"\x82\x00\x02\x00",
    b"\x82\x01\x80\x00",
    b"\x9f\x01\x80",
    b"\x82\x01\x81",
    // a port, a word and a word of IPv6 that are too great
    b"\x82\x01\x81\x83\x00\x00\x1a\x00\x01\x00\x00",
    b"\x82\x01\x81\x83\x00\x1b\x00\x00\x00\x01\x00\x00\x00\x00\x00",
    b"\x82\x01\x81\x86\x01\x00\x00\x00\x1b\x00\x00\x00\x01\x00\x00\x00\x00\x00",
    // addresses of five and seven elements, of another kind, and of one kind with the form of the other
    b"\x82\x01\x81\x85\x01\x00\x00\x00\x00",
    b"\x82\x01\x81\x87\x01\x00\x00\x00\x00\x00\x00",
    b"\x82\x01\x81\x83\x02\x00\x00",
    b"\x82\x01\x81\x86\x00\x00\x00\x00\x00\x00",
    // a number for an address, and what is passed over is no number
    b"\x82\x01\x81\x05",
    b"\x82\x01\x81\x88\x01\x00\x00\x00\x00\x20\x00\x00",
    // 2^63 addresses are announced
    b"\x82\x01\x9b\x80\x00\x00\x00\x00\x00\x00\x00\x83\x00\x00\x00",
];

#[test]
fn other_bytes_are_no_message_of_peer_sharing(rt: HostRuntime) {
    for &bytes in &NO_SHARES {
        expect(&rt, is_read(rt.alloc(), bytes, Said::Nothing), bytes);
    }
}

const NUMBERS: [(&[u8], Option<u64>); 18] = [
    (b"\x82\x04\x80", Some(4)),
    (b"\x82\x06\x82\x80\x00", Some(6)),
    (b"\x81\x07", Some(7)),
    (b"\x9f\x05\xff", Some(5)),
    (b"\x9f\x00\xbf\x00\x01\xff\xff", Some(0)),
    (b"\x98\x01\x18\x07", Some(7)),
    (b"\x81\x1b\xff\xff\xff\xff\xff\xff\xff\xff", Some(u64::MAX)),
    (b"", None),
    (b"\x80", None),
    (b"\x9f\xff", None),
    (b"\x05", None),
    (b"\xa1\x04\x00", None),
    // tagged, negative, nested
    (b"\xc1\x81\x05", None),
    (b"\x81\x20", None),
    (b"\x81\x81\x00", None),
    // no whole item, more than one, and none at all
    (b"\x82\x04", None),
    (b"\x81\x04\x00", None),
    (b"\x82\x04\x1c", None),
];

// Whether this is the first number of bytes, and of an item where they are one.
fn is_first_number(bytes: &[u8], number: Option<u64>) -> bool {
    first_number(bytes) == number
        && (first_item(bytes) != Scan::Whole(bytes.len()) || item_number(bytes) == number)
}

// Whether this is the first number of an array of 5 and of so many arrays inside each other.
fn is_number_before(alloc: Global, levels: usize, number: Option<u64>) -> bool {
    match filled(alloc, b"\x82\x05", (levels, 0x81), b"\0") {
        Ok(item) => first_number(&item) == number,
        Err(_) => false,
    }
}

#[test]
fn first_numbers(rt: HostRuntime) {
    for &(bytes, number) in &NUMBERS {
        expect(&rt, is_first_number(bytes, number), bytes);
    }
    // behind the number nothing is looked at
    assert!(rt; item_number(b"\x82\x04\x1c") == Some(4));
    assert!(rt; is_number_before(rt.alloc(), 63, Some(5)));
    assert!(rt; is_number_before(rt.alloc(), 64, None));
}
