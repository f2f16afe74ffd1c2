use net_base::{Addr, Cid, Ip};

#[test]
fn keys_of_both_families(rt: HostRuntime) {
    let loopback = Addr {
        ip: Ip::V4(0x7f00_0001),
        port: 3002,
    };
    let first = Addr {
        ip: Ip::V6(1),
        port: 3001,
    };
    assert!(rt; loopback.key() == 139_637_976_796_090);
    assert!(rt; first.key() == 68_537);
}

#[test]
fn ipv4_comes_before_ipv6(rt: HostRuntime) {
    let last = Addr {
        ip: Ip::V4(0xffff_ffff),
        port: 65_535,
    };
    let first = Addr {
        ip: Ip::V6(0),
        port: 0,
    };
    assert!(rt; last < first && last.is_before(&first) && !first.is_before(&last));
    assert!(rt; last.is_up_to(&first) && last.is_up_to(&last) && !first.is_up_to(&last));
    assert!(rt;
        last.is_before_with(Cid(9), &first, Cid(1)) && last.is_before_with(Cid(1), &last, Cid(2))
    );
    assert!(rt;
        !last.is_before_with(Cid(2), &last, Cid(2)) && !first.is_before_with(Cid(1), &last, Cid(9))
    );
    assert!(rt;
        Addr {
            ip: Ip::V4(1),
            port: 2
        } < Addr {
            ip: Ip::V4(1),
            port: 3
        }
    );
    assert!(rt;
        Addr {
            ip: Ip::V4(1),
            port: 9
        } < Addr {
            ip: Ip::V4(2),
            port: 3
        }
    );
}
