use super::steps::addresses::{A2, A3, A4};
use net_base::{Addr, Ip, OutOfMemory};
use pick_policy::{Picker, RankedPicker, Rated, picks_are_the_least};
use std::alloc::Global;
use std::process::Abort;

/// Under this word the score of 127.0.0.1:3002 is 2^64 - 1, and the next address has the score 0.
const WRAPPING: u64 = 18_446_604_435_732_755_525;

/// Of three candidates, these are so many as are picked under a word.
struct Pick(&'static [Addr; 3], usize, u64, &'static [Addr]);

fn picks(alloc: Global, picker: &Picker, row: &Pick) -> Result<bool, OutOfMemory> {
    let Pick([first, second, third], count, word, want) = row;
    if first.is_same(second) || first.is_same(third) || second.is_same(third) {
        return Ok(false);
    }
    let picked = picker.pick(alloc, &[*first, *second, *third], *count, *word)?;
    Ok(picked.as_slice() == *want)
}

fn picks_all(
    rt: &impl Abort,
    alloc: Global,
    picker: &Picker,
    rows: &[Pick],
) -> Result<(), OutOfMemory> {
    for (number, row) in rows.iter().enumerate() {
        assert!(rt; picks(alloc, picker, row)?, "in row {number}");
    }
    Ok(())
}

fn run(rt: &impl Abort, alloc: Global, rows: &[Pick]) -> Result<(), OutOfMemory> {
    let picker = Picker::new(Box::new(alloc, |addr: Addr, word: u64| {
        addr.key().wrapping_add(word)
    })?);
    picks_all(rt, alloc, &picker, rows)
}

const THREE: [Addr; 3] = [A4, A2, A3];

const LEAST: [Pick; 4] = [
    Pick(&THREE, 2, 0, &[A2, A3]),
    Pick(&THREE, 2, WRAPPING, &[A3, A4]),
    Pick(&THREE, 9, WRAPPING, &[A3, A4, A2]),
    Pick(&THREE, 0, 0, &[]),
];

#[test]
fn the_least_scores_are_picked(rt: HostRuntime) -> Result<(), OutOfMemory> {
    picks_are_the_least();
    run(&rt, rt.alloc(), &LEAST)
}

// An IPv6 address is folded into its key, so the first two have one key.
const LOW: Addr = Addr {
    ip: Ip::V4(5),
    port: 7,
};

const HIGH: Addr = Addr {
    ip: Ip::V6(5),
    port: 7,
};

const OTHER: Addr = Addr {
    ip: Ip::V4(5),
    port: 8,
};

const OF_ONE_KEY: [Pick; 1] = [Pick(&[OTHER, HIGH, LOW], 2, 0, &[LOW, HIGH])];

#[test]
fn of_one_key_the_lower_address_is_picked(rt: HostRuntime) -> Result<(), OutOfMemory> {
    run(&rt, rt.alloc(), &OF_ONE_KEY)
}

// Two of each key, in no order: the lower one of IPv4, the other of IPv6.
macro_rules! low {
    ($port:literal) => {
        Addr {
            ip: Ip::V4(5),
            port: $port,
        }
    };
}

macro_rules! high {
    ($port:literal) => {
        Addr {
            ip: Ip::V6(5),
            port: $port,
        }
    };
}

const CROWD: [Addr; 36] = [
    low!(14),
    low!(5),
    high!(10),
    high!(7),
    high!(18),
    low!(16),
    high!(5),
    low!(15),
    low!(6),
    high!(14),
    high!(11),
    low!(8),
    low!(2),
    low!(3),
    high!(12),
    low!(4),
    low!(1),
    low!(18),
    low!(10),
    high!(13),
    high!(9),
    low!(7),
    high!(16),
    high!(8),
    high!(6),
    high!(2),
    high!(3),
    low!(17),
    low!(11),
    high!(4),
    low!(13),
    high!(15),
    high!(1),
    high!(17),
    low!(12),
    low!(9),
];

const IN_ORDER: [Addr; 36] = [
    low!(1),
    high!(1),
    low!(2),
    high!(2),
    low!(3),
    high!(3),
    low!(4),
    high!(4),
    low!(5),
    high!(5),
    low!(6),
    high!(6),
    low!(7),
    high!(7),
    low!(8),
    high!(8),
    low!(9),
    high!(9),
    low!(10),
    high!(10),
    low!(11),
    high!(11),
    low!(12),
    high!(12),
    low!(13),
    high!(13),
    low!(14),
    high!(14),
    low!(15),
    high!(15),
    low!(16),
    high!(16),
    low!(17),
    high!(17),
    low!(18),
    high!(18),
];

/// Under this word those of port 6 have the score 0, and those of port 5 the score 2^64 - 1.
const SIX_FIRST: u64 = 18_446_744_073_709_223_930;

const FROM_SIX: [Addr; 36] = [
    low!(6),
    high!(6),
    low!(7),
    high!(7),
    low!(8),
    high!(8),
    low!(9),
    high!(9),
    low!(10),
    high!(10),
    low!(11),
    high!(11),
    low!(12),
    high!(12),
    low!(13),
    high!(13),
    low!(14),
    high!(14),
    low!(15),
    high!(15),
    low!(16),
    high!(16),
    low!(17),
    high!(17),
    low!(18),
    high!(18),
    low!(1),
    high!(1),
    low!(2),
    high!(2),
    low!(3),
    high!(3),
    low!(4),
    high!(4),
    low!(5),
    high!(5),
];

fn picks_of_crowd(
    alloc: Global,
    picker: &Picker,
    count: usize,
    word: u64,
    want: &[Addr],
) -> Result<bool, OutOfMemory> {
    let picked = picker.pick(alloc, &CROWD, count, word)?;
    Ok(picked.as_slice() == want)
}

// Less than a fourth of them are kept in a short list while they pass, and more are set apart and sorted.
#[test]
fn few_and_many_of_a_crowd_are_its_least(rt: HostRuntime) -> Result<(), OutOfMemory> {
    let alloc = rt.alloc();
    let picker = Picker::new(Box::new(alloc, |addr: Addr, word: u64| {
        addr.key().wrapping_add(word)
    })?);
    for (word, order) in [(0, &IN_ORDER), (SIX_FIRST, &FROM_SIX)] {
        for count in [1, 2, 3, 8, 9, 10, 35, 36] {
            let want = &order[..count];
            assert!(rt;
                picks_of_crowd(alloc, &picker, count, word, want)?,
                "{count} under {word}"
            );
        }
    }
    Ok(())
}

const RATED: [Rated; 3] = [
    Rated {
        addr: A2,
        failures: 1,
    },
    Rated {
        addr: A4,
        failures: 0,
    },
    Rated {
        addr: A3,
        failures: 0,
    },
];

fn ranks(
    alloc: Global,
    picker: &RankedPicker,
    count: usize,
    want: &[Addr],
) -> Result<bool, OutOfMemory> {
    let picked = picker.pick(alloc, &RATED, count, 0)?;
    Ok(picked.as_slice() == want)
}

#[test]
fn fewer_failures_are_picked_first(rt: HostRuntime) -> Result<(), OutOfMemory> {
    let picker = RankedPicker::new(Box::new(rt.alloc(), |addr: Addr, failures: u64, word: u64| {
        failures.min(65_535) * 281_474_976_710_656
            + addr.key().wrapping_add(word) % 281_474_976_710_656
    })?);
    assert!(rt; ranks(rt.alloc(), &picker, 2, &[A3, A4])?);
    assert!(rt; ranks(rt.alloc(), &picker, 3, &[A3, A4, A2])?);
    Ok(())
}
