use super::running::{End, Given, PLAIN, Wanted, expect, expect_each, expect_usage};
use std::test::Fail;
use tool_status::Status;

// What programs of another language counted.
const TOWNS: [(&[&str], &str); 3] = [
    (
        &["drill", "12141149323204801861", "1"],
        "events 1\nactions 0\nadmitted 0\nturned 0\ndials 0\ncloses 0\nestablished 0\nactive 0\n",
    ),
    (
        &["drill", "4", "100"],
        "events 100\nactions 210\nadmitted 1\nturned 0\ndials 21\ncloses 0\nestablished 16\nactive 6\n",
    ),
    (
        &["drill", "18446744073709551615", "3000"],
        "events 3000\nactions 2239\nadmitted 227\nturned 89\ndials 42\ncloses 227\nestablished 16\nactive 6\n",
    ),
];

#[test]
fn towns_are_run(rt: HostRuntime) -> Result<(), Fail> {
    for &(words, output) in &TOWNS {
        expect_each(&rt, rt.alloc(), words, 64, &[("", End::Done(output))])?;
    }
    Ok(())
}

const NO_DRILLS: [&[&str]; 11] = [
    &["drill"],
    &["drill", "7"],
    &["drill", "7", "0"],
    &["drill", "7", "1000001"],
    &["drill", "7", "01"],
    &["drill", "07", "1"],
    &["drill", "+7", "1"],
    &["drill", "7", ""],
    &["drill", "18446744073709551616", "1"],
    &["drill", "7", "1", "1"],
    &["drills", "7", "1"],
];

#[test]
fn other_numbers_are_no_drill(rt: HostRuntime) -> Result<(), Fail> {
    expect_usage(&rt, rt.alloc(), "", &NO_DRILLS)
}

// Beside an input. The first reading and the first writing would fail.
#[test]
fn a_drill_reads_nothing_and_puts_once(rt: HostRuntime) -> Result<(), Fail> {
    let given = Given {
        words: &["drill", "4", "9"],
        input: "now 5\n",
        readings: &[1],
        writings: &[1],
        ..PLAIN
    };
    let wanted = Wanted {
        status: Status::WriteFault,
        out: Some(b""),
        err: Some(b"write fault\n"),
        calls: Some(0),
    };
    expect(&rt, rt.alloc(), given, wanted)
}
