use super::examples::Rule::{G2, G3, G5, G6, G8, G9};
use super::examples::{Case, EXAMPLE, Example, WRAPPING, run};
use super::links::{ACQUIRABLE, CLOSED, IN_USE, NOT_SHARING, OWES2, OWES8, OWES10, PENDING, link};
use crate::tests::steps::addresses::{A2, A3, A4, A5, A6, A7, A8, A9, A10, A11, A12};
use crate::tests::steps::book::Step::{Becomes, Enter, Fails, IsAsked};
use crate::tests::steps::book::{BIG, ORDINARY, Step};
use crate::tests::steps::scene::{GROUP, Members, NOBODY, Setting};
use govern_rules::Order::{Activate, Ask, Deactivate, Forget, Promote, Release};
use net_base::OutOfMemory;
use net_base::Temp::{Hot, Warm};

// Two answers may be owed, and one is; two more, eleven more or none are to be known.
const SHARING: Example = Example {
    setting: Setting {
        book: &[
            Enter(ORDINARY, &[A2, A3, A4, A5, A6, A7]),
            Enter(BIG, &[A8, A9]),
            Becomes(A2, Warm),
            Becomes(A3, Hot),
            Becomes(A4, Warm),
            Becomes(A5, Warm),
            IsAsked(A6, 5000),
            Becomes(A6, Warm),
            Becomes(A8, Warm),
            Becomes(A9, Warm),
        ],
        groups: &[
            Members {
                addrs: &[A2],
                ..GROUP
            },
            GROUP,
        ],
        publics: &[],
    },
    links: &[
        link!(A2, IN_USE),
        link!(A3, IN_USE),
        link!(A4, NOT_SHARING),
        link!(A5, OWES10),
        link!(A6, IN_USE),
        link!(A7, IN_USE),
        link!(A8, IN_USE),
        // a big ledger peer owes an answer
        link!(A9, OWES10),
    ],
    cases: &[
        Case(G2, [8, 0, 0], &[Ask(A2, 2)]),
        Case(G2, [17, 0, 0], &[Ask(A2, 10)]),
        Case(G2, [6, 0, 0], &[]),
    ],
    ..EXAMPLE
};

// One more is to be known.
const UNDER_A_WORD: Example = Example {
    word: WRAPPING,
    cases: &[Case(G2, [7, 0, 0], &[Ask(A3, 1)])],
    ..SHARING
};

const FIVE_OWED: Example = Example {
    shares: 5,
    cases: &[Case(G2, [8, 0, 0], &[Ask(A2, 2), Ask(A3, 2)])],
    ..SHARING
};

const FIVE_OWED_LATER: Example = Example {
    moment: 5000,
    cases: &[Case(G2, [8, 0, 0], &[Ask(A2, 2), Ask(A3, 2), Ask(A6, 2)])],
    ..FIVE_OWED
};

const ASKED: [Example; 4] = [SHARING, UNDER_A_WORD, FIVE_OWED, FIVE_OWED_LATER];

#[test]
fn peers_are_asked_for_addresses(rt: HostRuntime) -> Result<(), OutOfMemory> {
    run(&rt, rt.alloc(), &ASKED)
}

const BEGINNING: Example = Example {
    setting: Setting {
        book: &[
            Enter(ORDINARY, &[A2, A3, A4, A5, A6, A7, A8, A9]),
            Enter(BIG, &[A10, A11, A12]),
            Becomes(A6, Warm),
            Fails(A7, 0, [1, 5000]),
            Becomes(A11, Warm),
        ],
        groups: &[
            Members {
                addrs: &[A4],
                ..GROUP
            },
            GROUP,
        ],
        publics: &[A5],
    },
    links: &[
        link!(A3, PENDING),
        link!(A6, IN_USE),
        link!(A8, CLOSED),
        // beside the one that this side has closed there is one to be used
        link!(A9, CLOSED),
        link!(A9, ACQUIRABLE),
        link!(A12, PENDING),
    ],
    cases: &[
        Case(
            G3,
            [1, 0, 0],
            &[Forget(A2), Forget(A7), Forget(A8), Forget(A9)],
        ),
        Case(G3, [7, 0, 0], &[Forget(A2)]),
        Case(G3, [8, 0, 0], &[]),
        // of three one is established, and one is pending
        Case(G5, [9, 3, 0], &[Promote(A2)]),
        Case(G5, [9, 9, 0], &[Promote(A2), Promote(A5), Promote(A9)]),
    ],
    ..EXAMPLE
};

const AFTER_THE_BACK_OFF: Example = Example {
    moment: 5000,
    cases: &[Case(G5, [9, 5, 0], &[Promote(A2), Promote(A5), Promote(A7)])],
    ..BEGINNING
};

const KNOWN_AND_ESTABLISHED: [Example; 2] = [BEGINNING, AFTER_THE_BACK_OFF];

#[test]
fn known_and_established_peers_by_the_targets(rt: HostRuntime) -> Result<(), OutOfMemory> {
    run(&rt, rt.alloc(), &KNOWN_AND_ESTABLISHED)
}

const WARM_AND_HOT: &[Step] = &[
    Enter(ORDINARY, &[A2, A3, A4, A5, A6, A7]),
    Enter(BIG, &[A8, A9]),
    Becomes(A2, Warm),
    Becomes(A3, Warm),
    Becomes(A4, Warm),
    Becomes(A5, Warm),
    Becomes(A6, Hot),
    Becomes(A7, Hot),
    Becomes(A8, Warm),
    Becomes(A9, Hot),
];

const CONNECTED: Example = Example {
    setting: Setting {
        book: WARM_AND_HOT,
        groups: &[
            Members {
                addrs: &[A5],
                ..GROUP
            },
            Members {
                addrs: &[A7],
                ..GROUP
            },
        ],
        publics: &[],
    },
    links: &[
        link!(A2, IN_USE),
        link!(A3, OWES8),
        link!(A4, OWES2),
        link!(A5, IN_USE),
        link!(A6, IN_USE),
        link!(A7, IN_USE),
        link!(A8, OWES2),
    ],
    cases: &[
        Case(G6, [9, 1, 0], &[Release(A2)]),
        Case(G6, [9, 6, 0], &[]),
        // of four two are active, and one was asked to become so
        Case(G8, [9, 9, 4], &[Activate(A2)]),
        Case(G8, [9, 9, 9], &[Activate(A2), Activate(A3)]),
        Case(G8, [9, 9, 0], &[]),
        // by the target, and by the valency
        Case(G9, [9, 9, 0], &[Deactivate(A6), Deactivate(A7)]),
    ],
    ..EXAMPLE
};

// A local peer stays hot by the valency of its group.
const BESIDE_A_VALENCY: Example = Example {
    setting: Setting {
        book: WARM_AND_HOT,
        groups: &[
            Members {
                addrs: &[A5],
                ..GROUP
            },
            Members {
                hot: 1,
                addrs: &[A7],
                ..GROUP
            },
        ],
        publics: &[],
    },
    cases: &[
        Case(G9, [9, 9, 0], &[Deactivate(A6)]),
        Case(G9, [9, 9, 2], &[]),
    ],
    ..CONNECTED
};

const USED: [Example; 2] = [CONNECTED, BESIDE_A_VALENCY];

#[test]
fn warm_and_hot_peers_by_the_targets(rt: HostRuntime) -> Result<(), OutOfMemory> {
    run(&rt, rt.alloc(), &USED)
}

const COLD: Example = Example {
    setting: Setting {
        book: &[Enter(ORDINARY, &[A2, A3, A4])],
        ..NOBODY
    },
    cases: &[Case(G5, [5, 2, 0], &[Promote(A2), Promote(A3)])],
    ..EXAMPLE
};

const TWO_WARM: Example = Example {
    setting: Setting {
        book: &[
            Enter(ORDINARY, &[A2, A3, A4]),
            Becomes(A2, Warm),
            Becomes(A3, Warm),
        ],
        ..NOBODY
    },
    links: &[link!(A2, IN_USE), link!(A3, IN_USE)],
    cases: &[Case(G6, [5, 1, 0], &[Release(A2)])],
    ..EXAMPLE
};

const TWO_WARM_UNDER_A_WORD: Example = Example {
    word: WRAPPING,
    cases: &[Case(G6, [5, 1, 0], &[Release(A3)])],
    ..TWO_WARM
};

const BY_THE_WORD: [Example; 3] = [COLD, TWO_WARM, TWO_WARM_UNDER_A_WORD];

#[test]
fn the_word_decides_between_peers(rt: HostRuntime) -> Result<(), OutOfMemory> {
    run(&rt, rt.alloc(), &BY_THE_WORD)
}

// The link of the greater address comes first.
const OUT_OF_ORDER: Example = Example {
    setting: Setting {
        book: &[
            Enter(ORDINARY, &[A3, A4]),
            Becomes(A3, Warm),
            Becomes(A4, Warm),
        ],
        ..NOBODY
    },
    links: &[link!(A4, OWES2), link!(A3, IN_USE)],
    cases: &[Case(G8, [9, 9, 2], &[Activate(A3)])],
    ..EXAMPLE
};

const SORTED: [Example; 1] = [OUT_OF_ORDER];

#[test]
fn links_are_put_in_order(rt: HostRuntime) -> Result<(), OutOfMemory> {
    run(&rt, rt.alloc(), &SORTED)
}
