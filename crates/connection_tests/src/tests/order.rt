ghost use Rattle.std.specs.Prelude.{◌≡◌, ◌<◌, ◌++◌, ◌∷◌, [], OnOk};

use net_base::Cid;
use prune_order::PruneOrder;
use std::process::Abort;
use std::test::Fail;

const ONE: Cid = Cid(1);

const TWO: Cid = Cid(2);

const THREE: Cid = Cid(3);

// One more connection comes.
fn come(order: &mut PruneOrder, cid: Cid, rank: Option<u8>) -> Result<(), Fail>
    requires { order.old.last.0 < cid.0 }
    ensures rows { OnOk result (order.new.rows ≡ order.old.rows ++ record { cid = cid; rank = rank } ∷ []) }
    ensures last { OnOk result (order.new.last ≡ cid) }
{
    order.make_room()?;
    order.come(cid, rank);
    Ok(())
}

fn goes_first(rt: &impl Abort, order: &PruneOrder, cid: Option<Cid>) {
    assert!(rt; order.choice() == cid);
}

fn come_and_go(rt: &impl Abort, order: &mut PruneOrder) -> Result<(), Fail>
    requires none { order.old.rows ≡ [] }
    requires new { order.old.last.0 ≡ 0 }
{
    goes_first(rt, order, None);
    come(order, ONE, Some(2))?;
    come(order, TWO, Some(1))?;
    come(order, THREE, Some(1))?;
    goes_first(rt, order, Some(THREE));
    order.leave(THREE);
    goes_first(rt, order, Some(TWO));
    order.turn(TWO, None);
    goes_first(rt, order, Some(ONE));
    order.turn(TWO, Some(0));
    goes_first(rt, order, Some(TWO));
    Ok(())
}

#[test]
fn who_goes_first(rt: HostRuntime) -> Result<(), Fail> {
    let mut order = PruneOrder::new(rt.alloc());
    come_and_go(&rt, &mut order)
}
