use super::examples::Rule::{G4, G7, G9};
use super::examples::{Case, EXAMPLE, Example, run};
use super::links::{IN_USE, OWES2, PENDING, link};
use crate::tests::steps::addresses::{A2, A3, A4, A5, A6, A7};
use crate::tests::steps::book::Step::{Becomes, Enter};
use crate::tests::steps::book::{ORDINARY, Step};
use crate::tests::steps::scene::{GROUP, Members, NOBODY, Setting};
use govern_rules::Order::{Activate, Deactivate, Promote};
use net_base::OutOfMemory;
use net_base::Temp::{Hot, Warm};

// Whatever the targets: 3002 belongs to the first group alone, and 3005 is not known.
const FIRST_GROUP: Example = Example {
    setting: Setting {
        book: &[Enter(ORDINARY, &[A2, A3, A4])],
        groups: &[
            Members {
                hot: 1,
                warm: 2,
                addrs: &[A4, A3, A2],
                ..GROUP
            },
            Members {
                warm: 2,
                addrs: &[A2, A5],
                ..GROUP
            },
        ],
        ..NOBODY
    },
    cases: &[Case(G4, [0, 0, 0], &[Promote(A2), Promote(A3)])],
    ..EXAMPLE
};

const SOME_OF_EACH: &[Step] = &[
    Enter(ORDINARY, &[A2, A3, A4, A6, A7]),
    Becomes(A2, Warm),
    Becomes(A6, Warm),
    Becomes(A7, Hot),
];

// Of the one group a member is established, and one pending; of the other one is hot, and one asked to become so.
const MORE_WANTED: Example = Example {
    setting: Setting {
        book: SOME_OF_EACH,
        groups: &[
            Members {
                hot: 1,
                warm: 3,
                addrs: &[A2, A3, A4],
                ..GROUP
            },
            Members {
                hot: 2,
                warm: 2,
                addrs: &[A6, A7],
                ..GROUP
            },
        ],
        ..NOBODY
    },
    links: &[
        link!(A2, IN_USE),
        link!(A3, PENDING),
        link!(A6, OWES2),
        link!(A7, IN_USE),
    ],
    cases: &[
        Case(G4, [0, 0, 0], &[Promote(A4)]),
        Case(G7, [0, 0, 0], &[Activate(A2)]),
        Case(G9, [9, 9, 9], &[]),
    ],
    ..EXAMPLE
};

const WANTED: [Example; 2] = [FIRST_GROUP, MORE_WANTED];

#[test]
fn groups_by_their_valencies(rt: HostRuntime) -> Result<(), OutOfMemory> {
    run(&rt, rt.alloc(), &WANTED)
}

const ENOUGH: Example = Example {
    setting: Setting {
        book: SOME_OF_EACH,
        groups: &[
            Members {
                warm: 2,
                addrs: &[A2, A3, A4],
                ..GROUP
            },
            Members {
                warm: 2,
                addrs: &[A6, A7],
                ..GROUP
            },
        ],
        publics: &[],
    },
    cases: &[
        Case(G4, [0, 0, 0], &[]),
        Case(G7, [0, 0, 0], &[]),
        Case(G9, [9, 9, 9], &[Deactivate(A7)]),
    ],
    ..MORE_WANTED
};

const NOTHING_WANTED: [Example; 1] = [ENOUGH];

#[test]
fn groups_that_have_enough(rt: HostRuntime) -> Result<(), OutOfMemory> {
    run(&rt, rt.alloc(), &NOTHING_WANTED)
}
