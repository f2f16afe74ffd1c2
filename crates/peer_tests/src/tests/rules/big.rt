use super::examples::Rule::Big;
use super::examples::{Case, EXAMPLE, Example, run};
use super::links::{CLOSED, IN_USE, OWES2, OWES8, PENDING, link};
use crate::tests::steps::addresses::{A2, A3, A4, A5, A10, A11, A12};
use crate::tests::steps::book::Step::{Becomes, Enter, Fails};
use crate::tests::steps::book::{BIG, ORDINARY};
use crate::tests::steps::scene::{NOBODY, Setting};
use govern_rules::BigRule::{B3, B5, B6, B8, B9};
use govern_rules::Order::{Activate, Deactivate, Forget, Promote, Release};
use net_base::OutOfMemory;
use net_base::Temp::{Hot, Warm};

// An ordinary peer of each temperature stands beside the big ones. The one that failed comes last, and is in its back-off
// at first.
const BEGINNING: Example = Example {
    setting: Setting {
        book: &[
            Enter(ORDINARY, &[A10, A11, A12]),
            Enter(BIG, &[A2, A3, A4, A5]),
            Becomes(A11, Warm),
            Becomes(A12, Hot),
            Fails(A2, 0, [1, 5000]),
        ],
        ..NOBODY
    },
    links: &[link!(A4, PENDING), link!(A5, CLOSED)],
    cases: &[
        Case(Big(B3), [2, 0, 0], &[Forget(A3), Forget(A5)]),
        Case(Big(B3), [1, 0, 0], &[Forget(A3), Forget(A5), Forget(A2)]),
        Case(Big(B5), [9, 1, 0], &[]),
        Case(Big(B5), [9, 9, 0], &[Promote(A3)]),
    ],
    ..EXAMPLE
};

const AFTER_THE_BACK_OFF: Example = Example {
    moment: 5000,
    cases: &[Case(Big(B5), [9, 9, 0], &[Promote(A3), Promote(A2)])],
    ..BEGINNING
};

const CONNECTED: Example = Example {
    setting: Setting {
        book: &[
            Enter(ORDINARY, &[A10, A11, A12]),
            Enter(BIG, &[A2, A3, A4, A5]),
            Becomes(A11, Warm),
            Becomes(A12, Hot),
            Becomes(A2, Warm),
            Becomes(A3, Warm),
            Becomes(A4, Warm),
            Becomes(A5, Hot),
        ],
        ..NOBODY
    },
    links: &[
        link!(A2, IN_USE),
        link!(A3, OWES2),
        link!(A4, OWES8),
        link!(A5, IN_USE),
    ],
    moment: 0,
    cases: &[
        Case(Big(B6), [9, 1, 0], &[Release(A2)]),
        Case(Big(B6), [9, 4, 0], &[]),
        Case(Big(B8), [9, 9, 3], &[Activate(A2)]),
        Case(Big(B9), [9, 9, 0], &[Deactivate(A5)]),
        Case(Big(B9), [9, 9, 1], &[]),
    ],
    ..EXAMPLE
};

const ALL: [Example; 3] = [BEGINNING, AFTER_THE_BACK_OFF, CONNECTED];

#[test]
fn big_ledger_peers_by_their_targets(rt: HostRuntime) -> Result<(), OutOfMemory> {
    run(&rt, rt.alloc(), &ALL)
}
