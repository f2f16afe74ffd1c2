use super::running::{End, expect_again, expect_each};
use net_base::RefusalKind;
use std::test::Fail;

const OPENED: &str = "joined
joined
bytes 1 00000000000000118200a219801082182af419801182182af4
bytes 1 0000000000070003820000
gone 1
joined
now 10000
end
";

const OPENED_TOLD: &str = "joined
> admit 1
joined
> turnaway
bytes 1 00000000000000118200a219801082182af419801182182af4
> send 1 0000000080000009830119801182182af4
> open 1 32785
bytes 1 0000000000070003820000
gone 1
joined
> admit 2
now 10000
> close 2 fault handshakewait
end
";

const LED: [(&str, &str); 3] = [
    (OPENED, OPENED_TOLD),
    (
        "joined\nbytes 1 00000000000000068200a1186380\nend\n",
        "joined\n> admit 1\nbytes 1 00000000000000068200a1186380\n> send 1 000000008000000b8202820082198010198011\n> close 1 refused\nend\n",
    ),
    (
        "joined\nbytes 1 0000000000020000\nend\n",
        "joined\n> admit 1\nbytes 1 0000000000020000\n> close 1 fault unknownid\nend\n",
    ),
];

const REFUSED: [(&str, End); 4] = [
    (
        "",
        End::Refused(1, RefusalKind::NoEnd, "", "line 1 refused: no end\n"),
    ),
    (
        "now 01\nend\n",
        End::Refused(1, RefusalKind::Number(2), "", "line 1 refused: number 2\n"),
    ),
    (
        "> \njoined\nbytes 1 0\nend\n",
        End::Refused(
            3,
            RefusalKind::Word(3),
            "joined\n> admit 1\n",
            "line 3 refused: word 3\n",
        ),
    ),
    (
        "joined\naccepted 1\n",
        End::Refused(
            2,
            RefusalKind::Word(1),
            "joined\n> admit 1\n",
            "line 2 refused: word 1\n",
        ),
    ),
];

const WORDS: [&str; 4] = ["clients", "42", "1", "10000"];

#[test]
fn clients_are_led(rt: HostRuntime) -> Result<(), Fail> {
    expect_again(&rt, rt.alloc(), &WORDS, 7, &LED)
}

#[test]
fn lines_of_clients_are_refused(rt: HostRuntime) -> Result<(), Fail> {
    expect_each(&rt, rt.alloc(), &WORDS, 64, &REFUSED)
}
