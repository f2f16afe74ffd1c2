use least_tree::{LeastTree, NONE, key, second};
use std::alloc::Global;
use std::process::Abort;
use std::test::Fail;

// Where a number is put, the number, and the least then.
const PUTS: [(usize, u128, u128); 7] = [
    (3, 9, 5),
    (0, 4, 4),
    (5, 2, 2),
    (5, NONE, 4),
    (0, NONE, 6),
    (1, 6, 6),
    (2, NONE, 6),
];

fn put_all(rt: &impl Abort, tree: &mut LeastTree, puts: &[(usize, u128, u128)]) {
    for (place, number, least) in puts {
        if *place < tree.len() {
            tree.put(*place, *number);
        }
        assert!(rt; tree.least() == *least);
    }
}

fn grown(alloc: Global) -> Result<LeastTree, Fail> {
    Ok(LeastTree::over(alloc, &[5, 6, 7])?)
}

#[test]
fn the_least_is_a_look(rt: HostRuntime) -> Result<(), Fail> {
    assert!(&rt; LeastTree::new(rt.alloc()).least() == NONE);
    let mut tree = grown(rt.alloc())?;
    assert!(&rt; tree.len() >= 6);
    put_all(&rt, &mut tree, &PUTS);
    Ok(())
}

// Where a number is put, the number, and the last place of the least then.
const LASTS: [(usize, u128, Option<usize>); 6] = [
    (0, 7, Some(2)),
    (1, 5, Some(1)),
    (5, 5, Some(5)),
    (4, 9, Some(5)),
    (5, NONE, Some(1)),
    (1, 8, Some(2)),
];

fn put_lasts(rt: &impl Abort, tree: &mut LeastTree, puts: &[(usize, u128, Option<usize>)]) {
    for (place, number, last) in puts {
        if *place < tree.len() {
            tree.put(*place, *number);
        }
        assert!(rt; tree.last_least() == *last);
    }
}

#[test]
fn the_last_of_the_least_is_found(rt: HostRuntime) -> Result<(), Fail> {
    assert!(&rt; LeastTree::new(rt.alloc()).last_least().is_none());
    let mut tree = LeastTree::over(rt.alloc(), &[6, 7, 6])?;
    assert!(&rt; tree.last_least() == Some(2));
    put_lasts(&rt, &mut tree, &LASTS);
    Ok(())
}

#[test]
fn keys_are_in_order(rt: HostRuntime) {
    assert!(&rt; key(1, u64::MAX) < key(2, 0));
    assert!(&rt; key(2, 0) < key(2, 1));
    assert!(&rt; second(key(7, 9)) == 9);
}
