ghost use Rattle.std.specs.Prelude.{◌≡◌, ⊤};

use super::next_word;
use chunked_list::{Change, ChunkedList};
use std::alloc::Global;
use std::mem;
use std::process::Abort;
use std::test::Fail;

// What is asked of a list. The first number is a place.
#[derive(Clone, Copy)]
enum Call {
    Insert(usize, u64),
    Push(u64),
    Remove(usize),
    Replace(usize, u64),
    Change(usize, u64),
}

// Another number stands where one stood, which is told.
struct Renumbering {
    number: u64,
}

impl Change<u64> for Renumbering {
    type Answer = u64;

    ghost may = { λ renumbering old. ⊤ };

    ghost does = { λ renumbering old new answer. (new ≡ renumbering.number) × (answer ≡ old) };

    fn apply(self, item: &mut u64) -> u64 {
        let Renumbering { number } = self;
        mem::replace(item, number)
    }
}

fn call_of(number: u64, most: usize) -> Call {
    let place = (number / 16) as usize % 1024;
    match number % 16 {
        0 | 1 | 2 | 3 | 4 | 5 if place < most => Call::Insert(place, number),
        6 => Call::Push(number),
        7 => Call::Replace(place, number),
        8 => Call::Change(place, number),
        _ => Call::Remove(place),
    }
}

// The item that goes. None where none does, or there is no such place.
fn ask(list: &mut ChunkedList<u64>, call: Call) -> Result<Option<u64>, Fail> {
    match call {
        Call::Insert(place, item) if place <= list.len() => list.insert(place, item)?,
        Call::Push(item) => list.push(item)?,
        Call::Remove(place) if place < list.len() => return Ok(Some(list.remove(place))),
        Call::Replace(place, item) if place < list.len() => {
            return Ok(Some(list.replace(place, item)));
        }
        Call::Change(place, number) if place < list.len() => {
            return Ok(Some(list.change(place, Renumbering { number })));
        }
        _ => {}
    }
    Ok(None)
}

// The same of a vector.
fn ask_plain(plain: &mut Vec<u64>, call: Call) -> Result<Option<u64>, Fail> {
    match call {
        Call::Insert(place, item) if place <= plain.len() => plain.insert(place, item)?,
        Call::Push(item) => plain.push(item)?,
        Call::Remove(place) if place < plain.len() => return Ok(Some(plain.remove(place))),
        Call::Replace(place, item) | Call::Change(place, item) if place < plain.len() => {
            let old = plain[place];
            plain[place] = item;
            return Ok(Some(old));
        }
        _ => {}
    }
    Ok(None)
}

fn both_answer(
    rt: &impl Abort,
    list: &mut ChunkedList<u64>,
    plain: &mut Vec<u64>,
    call: Call,
) -> Result<(), Fail> {
    assert!(rt; ask(list, call)? == ask_plain(plain, call)?);
    Ok(())
}

fn same_items(list: &ChunkedList<u64>, plain: &[u64]) -> bool {
    for place in 0..plain.len() {
        if list.get(place) != plain.get(place) {
            return false;
        }
    }
    list.get(plain.len()).is_none()
        && list.len() == plain.len()
        && list.is_empty() == plain.is_empty()
}

fn they_agree(
    rt: &impl Abort,
    list: &mut ChunkedList<u64>,
    plain: &mut Vec<u64>,
) -> Result<(), Fail> {
    for item in 0..900_u64 {
        both_answer(rt, list, plain, Call::Push(item))?;
    }
    let mut word = 1;
    for turn in 0..4000_u64 {
        word = next_word(word);
        // it grows and shrinks in turn
        let most = if turn / 1000 % 2 == 0 { 1024 } else { 0 };
        both_answer(rt, list, plain, call_of(word / 2_147_483_648, most))?;
        assert!(rt; turn % 50 != 0 || same_items(list, plain), "at turn {turn}");
    }
    Ok(())
}

#[test]
fn a_list_agrees_with_a_vector(rt: HostRuntime) -> Result<(), Fail> {
    let mut list = ChunkedList::new(rt.alloc());
    let mut plain = Vec::new(rt.alloc());
    they_agree(&rt, &mut list, &mut plain)
}

// As many numbers as that, of which each is so much more than the one before.
fn rising(alloc: Global, count: u64, first: u64, step: u64) -> Result<Vec<u64>, Fail> {
    let mut numbers = Vec::new(alloc);
    for place in 0..count {
        numbers.push(place.wrapping_mul(step).wrapping_add(first))?;
    }
    Ok(numbers)
}

fn holds(rt: &impl Abort, list: &ChunkedList<u64>, numbers: &[u64]) {
    assert!(rt; same_items(list, numbers));
}

// Puts in a thousand numbers from the highest down, so that each goes in before all others.
fn put_in_a_thousand(list: &mut ChunkedList<u64>, step: u64) -> Result<(), Fail> {
    for number in (0..1000_u64).rev() {
        ask(list, Call::Insert(0, number.wrapping_mul(step)))?;
    }
    Ok(())
}

// How many numbers at the front are below a limit.
fn count_below(list: &ChunkedList<u64>, limit: u64) -> u64 {
    list.partition_point(|item| *item < limit) as u64
}

fn a_thousand_are_found(rt: &impl Abort, list: &ChunkedList<u64>) {
    for number in 0..1000_u64 {
        assert!(rt; count_below(list, 3 * number) == number, "below {number}");
        assert!(rt;
            count_below(list, 3 * number + 1) == number + 1,
            "up to {number}"
        );
    }
}

fn a_thousand_are_removed(rt: &impl Abort, list: &mut ChunkedList<u64>) -> Result<(), Fail> {
    for _ in 0..1000_u64 {
        ask(list, Call::Remove(0))?;
    }
    assert!(rt; list.is_empty());
    assert!(rt; count_below(list, u64::MAX) == 0);
    Ok(())
}

#[test]
fn rising_numbers_are_found(rt: HostRuntime) -> Result<(), Fail> {
    let numbers = rising(rt.alloc(), 1000, 0, 3)?;
    let mut list = ChunkedList::new(rt.alloc());
    put_in_a_thousand(&mut list, 3)?;
    holds(&rt, &list, &numbers);
    a_thousand_are_found(&rt, &list);
    a_thousand_are_removed(&rt, &mut list)
}

// Of 960 numbers one of each 64 is left. The first go first, so that each chunk is small before the next one is.
fn thin_out(list: &mut ChunkedList<u64>) -> Result<(), Fail> {
    for number in 0..960_u64 {
        ask(list, Call::Push(number))?;
    }
    for place in 0..15 {
        for _ in 0..63_u64 {
            ask(list, Call::Remove(place))?;
        }
    }
    Ok(())
}

#[test]
fn one_of_each_sixty_four_is_left(rt: HostRuntime) -> Result<(), Fail> {
    let numbers = rising(rt.alloc(), 15, 63, 64)?;
    let mut list = ChunkedList::new(rt.alloc());
    thin_out(&mut list)?;
    holds(&rt, &list, &numbers);
    Ok(())
}

fn are_equal(rt: &impl Abort, found: &[u64], wanted: &[u64]) {
    assert!(rt; found == wanted);
}

#[test]
fn a_copy_has_the_items_in_their_order(rt: HostRuntime) -> Result<(), Fail> {
    let numbers = rising(rt.alloc(), 1000, 0, 1)?;
    let mut list = ChunkedList::new(rt.alloc());
    put_in_a_thousand(&mut list, 1)?;
    are_equal(&rt, &list.to_vec(rt.alloc())?, &numbers);
    Ok(())
}

fn walked(alloc: Global, list: &ChunkedList<u64>) -> Result<Vec<u64>, Fail> {
    let mut items = Vec::new(alloc);
    for _ in 0..list.len() {
        items.extend_from_slice(list.run_from(items.len()))?;
    }
    Ok(items)
}

fn has_runs(rt: &impl Abort, list: &ChunkedList<u64>) {
    assert!(rt; list.run_from(70).first() == Some(&210));
    assert!(rt; list.run_from(200).is_empty());
}

#[test]
fn a_list_is_walked_by_runs(rt: HostRuntime) -> Result<(), Fail> {
    let numbers = rising(rt.alloc(), 200, 0, 3)?;
    let list = ChunkedList::from_slice(rt.alloc(), &numbers)?;
    are_equal(&rt, &walked(rt.alloc(), &list)?, &numbers);
    has_runs(&rt, &list);
    Ok(())
}
