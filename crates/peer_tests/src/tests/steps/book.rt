use net_base::{Addr, Ip, OutOfMemory, Peer, Temp};
use peer_book::{Added, MOST_PEERS, PeerBook};
use std::alloc::{AllocError, Global};
use std::process::Abort;

pub const ORDINARY: bool = false;

pub const BIG: bool = true;

/// What is done to a book, or is to be seen of it. A class is `ORDINARY` or `BIG`.
pub enum Step {
    Adds(bool, Addr, Added),
    /// These come in one after another, all of them new.
    Enter(bool, &'static [Addr]),
    /// Of these some are new, where so many of the class may be known.
    AddsSome(bool, &'static [Addr], u64, &'static [Addr]),
    /// One peer less comes in than there may be.
    Fills(bool),
    Becomes(Addr, Temp),
    Succeeds(Addr),
    /// A failure at a moment, with a back-off of five seconds: how often it failed by then, and until when it is left alone.
    Fails(Addr, u64, [u64; 2]),
    IsAsked(Addr, u64),
    BecomesOrdinary(Addr),
    Leaves(Addr),
    AllLeave(&'static [Addr]),
    /// Of a temperature there are these.
    Lists(Temp, &'static [Addr]),
    IsThere(Peer),
    IsFirst(Peer),
    IsAbsent(Addr),
    /// How many ordinary peers are known, warm or hot, and hot, and the same of big ledger peers.
    Counts([u64; 3], [u64; 3]),
    Has(usize),
}

fn adds(book: &mut PeerBook, big: bool, addr: Addr, answer: Added) -> Result<bool, OutOfMemory> {
    let added = if big {
        book.add_big(addr)?
    } else {
        book.add(addr)?
    };
    Ok(added == answer)
}

fn adds_all(
    book: &mut PeerBook,
    big: bool,
    addrs: &[Addr],
    most: u64,
    new: &[Addr],
) -> Result<bool, OutOfMemory> {
    Ok(book.add_all(big, addrs, most)?.as_slice() == new)
}

// Ordinary ones from 0.0.0.0 on, and big ledger peers at the ports of ::1.
fn numbered(big: bool, number: u16) -> Addr {
    if big {
        Addr {
            ip: Ip::V6(1),
            port: number.wrapping_add(1),
        }
    } else {
        Addr {
            ip: Ip::V4(u32::from(number)),
            port: 3001,
        }
    }
}

fn push_numbered(addrs: &mut Vec<Addr>, big: bool) -> Result<(), AllocError> {
    for number in 0..19_999 {
        addrs.push(numbered(big, number))?;
    }
    Ok(())
}

fn fills(alloc: Global, book: &mut PeerBook, big: bool) -> Result<bool, OutOfMemory> {
    let mut addrs = Vec::new(alloc);
    push_numbered(&mut addrs, big)?;
    adds_all(book, big, &addrs, MOST_PEERS, &addrs)
}

// What is done to one that is known.
#[derive(Drop)]
enum Change {
    Temp(Temp),
    Success,
    Failure(u64),
    Ask(u64),
    Class,
}

fn apply(book: &mut PeerBook, addr: Addr, change: Change) -> bool {
    if book.get(addr).is_none() {
        return false;
    }
    match change {
        Change::Temp(temp) => book.set_temp(addr, temp),
        Change::Success => book.succeed(addr),
        Change::Failure(now) => book.fail(addr, now.min(1_000_000), 5000),
        Change::Ask(next) => book.asked(addr, next),
        Change::Class => book.make_ordinary(addr),
    }
    true
}

fn fails(book: &mut PeerBook, addr: Addr, now: u64, then: [u64; 2]) -> bool {
    apply(book, addr, Change::Failure(now))
        && match book.get(addr) {
            Some(peer) => [peer.failures, peer.not_before] == then,
            None => false,
        }
}

fn leaves(book: &mut PeerBook, addr: Addr) -> bool {
    match book.get(addr) {
        Some(peer) if peer.temp == Temp::Cold => {
            book.forget(addr);
            is(book, addr, None)
        }
        _ => false,
    }
}

fn lists(book: &PeerBook, temp: Temp, want: &[Addr]) -> Result<bool, OutOfMemory> {
    let listed = book.listed(temp);
    Ok(
        listed.run_from(0) == want
            && listed.is_empty() == want.is_empty()
            && book.of_temp(temp)?.as_slice() == want,
    )
}

fn is(book: &PeerBook, addr: Addr, peer: Option<Peer>) -> bool {
    book.get(addr) == peer
}

fn is_first(book: &PeerBook, peer: &Peer) -> bool {
    book.run_from(0).first() == Some(peer)
}

fn counts(book: &PeerBook, ordinary: [u64; 3], big: [u64; 3]) -> bool {
    [book.known(), book.established(), book.active()] == ordinary
        && [book.big_known(), book.big_established(), book.big_active()] == big
}

fn all_leave(book: &mut PeerBook, addrs: &[Addr]) -> Result<bool, OutOfMemory> {
    book.forget_all(addrs)?;
    Ok(true)
}

// Takes a step. False where something else is seen than is to be seen.
fn take(alloc: Global, book: &mut PeerBook, step: &Step) -> Result<bool, OutOfMemory> {
    match step {
        Step::Adds(big, addr, answer) => adds(book, *big, *addr, *answer),
        Step::Enter(big, addrs) => adds_all(book, *big, addrs, MOST_PEERS, addrs),
        Step::AddsSome(big, addrs, most, new) => adds_all(book, *big, addrs, *most, new),
        Step::Fills(big) => fills(alloc, book, *big),
        Step::Becomes(addr, temp) => Ok(apply(book, *addr, Change::Temp(*temp))),
        Step::Succeeds(addr) => Ok(apply(book, *addr, Change::Success)),
        Step::Fails(addr, now, then) => Ok(fails(book, *addr, *now, *then)),
        Step::IsAsked(addr, next) => Ok(apply(book, *addr, Change::Ask(*next))),
        Step::BecomesOrdinary(addr) => Ok(apply(book, *addr, Change::Class)),
        Step::Leaves(addr) => Ok(leaves(book, *addr)),
        Step::AllLeave(addrs) => all_leave(book, addrs),
        Step::Lists(temp, want) => lists(book, *temp, want),
        Step::IsThere(peer) => Ok(is(book, peer.addr, Some(*peer))),
        Step::IsFirst(peer) => Ok(is_first(book, peer)),
        Step::IsAbsent(addr) => Ok(is(book, *addr, None)),
        Step::Counts(ordinary, big) => Ok(counts(book, *ordinary, *big)),
        Step::Has(count) => Ok(book.len() == *count),
    }
}

/// All the steps, one after the other.
pub fn take_all(
    rt: &impl Abort,
    alloc: Global,
    book: &mut PeerBook,
    steps: &[Step],
) -> Result<(), OutOfMemory> {
    for (number, step) in steps.iter().enumerate() {
        assert!(rt; take(alloc, book, step)?, "at step {number}");
    }
    Ok(())
}

/// Takes the steps from an empty book on.
pub fn run(rt: &impl Abort, alloc: Global, steps: &[Step]) -> Result<(), OutOfMemory> {
    let mut book = PeerBook::new(alloc);
    take_all(rt, alloc, &mut book, steps)
}
