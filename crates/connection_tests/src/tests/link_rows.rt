ghost use Rattle.std.specs.Prelude.{◌≡◌, []};

use super::AT_3002;
use conn_table::Placed;
use govern_rules::Link;
use links::{Links, place_of};
use net_base::Cid;
use std::test::Fail;

const PENDING: Link = Link {
    addr: AT_3002,
    cid: Cid(1),
    live: true,
    acquirable: false,
    pending: true,
    local: false,
    sharing: false,
    owes2: false,
    owes8: false,
    owes10: false,
};

const ACQUIRABLE: Link = Link {
    acquirable: true,
    pending: false,
    ..PENDING
};

const PLACE: Placed = Placed {
    addr: AT_3002,
    cid: Cid(1),
};

fn come_turn_and_go(links: &mut Links) -> Result<(), Fail>
    requires { links.old ≡ [] }
{
    links.enroll(PENDING)?;
    links.set(ACQUIRABLE);
    let _ = links.list();
    links.leave(PLACE);
    Ok(())
}

#[test]
fn a_link_comes_turns_and_goes(rt: HostRuntime) -> Result<(), Fail> {
    let mut links = Links::new(rt.alloc());
    come_turn_and_go(&mut links)
}

#[test]
fn a_link_has_the_place_of_its_connection(rt: HostRuntime) {
    assert!(&rt; place_of(&PENDING) == PLACE);
}
