use net_base::{Cid, Deadline, Kind};

fn deadline(at: u64, cid: u64, kind: Kind) -> Deadline {
    Deadline {
        at,
        cid: Cid(cid),
        kind,
    }
}

#[test]
fn deadlines_in_order(rt: HostRuntime) {
    let grace = deadline(5000, 2, Kind::Grace);
    assert!(rt; deadline(4999, 9, Kind::Reply10).is_before(&grace));
    assert!(rt; deadline(5000, 1, Kind::Reply10).is_before(&grace));
    assert!(rt; deadline(5000, 2, Kind::Handshake).is_before(&grace));
    assert!(rt; !grace.is_before(&grace));
    assert!(rt; grace.is_before(&deadline(5000, 2, Kind::TimeWait)));
}
