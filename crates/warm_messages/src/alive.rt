ghost use Rattle.std.specs.Prelude.{◌≡◌, List, ℕ, IfOk, MatchOption};
ghost use Rattle.warm_messages.specs.declared.alive.Alive.{Alive};
ghost use Rattle.warm_messages.specs.Message.{SpellsAlive};
ghost use Rattle.warm_messages.specs.Reading.{alive_of, alive_of_numbers, cookie_message};
ghost use Rattle.warm_messages.specs.Writing.{written_alive};

use crate::array::write_numbers;
use crate::numbers::only_numbers;
use net_base::{Octets, OutOfMemory};
use std::alloc::Global;

/// The canonical spelling of `Alive::Done`.
pub const ALIVE_DONE: [u8; 2] = [0x81, 0x02];

/// A message of keep-alive. A cookie is chosen by whoever asks, and comes back in the reply.
#[derive(Clone, Copy, PartialEq, Eq)]
pub enum Alive {
    Ask(u16),
    Reply(u16),
    Done,
}

/// The keep-alive message that the bytes are, all of them. None exactly where they are none.
#[tactic(auto, unfolding(crate::specs::Reading::alive_of))]
pub fn read_alive(bytes: &[u8]) -> Option<Alive>
    ensures value { result ≡ alive_of bytes.now }
    ensures spelled { MatchOption result ((message : Alive) → SpellsAlive message bytes.now → ⊥) (λ message. SpellsAlive message bytes.now) }
{
    let numbers = only_numbers(bytes)?;
    alive_of(numbers.as_slice())
}

fn alive_of(numbers: &[u64]) -> Option<Alive>
    ensures { result ≡ alive_of_numbers numbers.now }
{
    match numbers {
        [kind] => (*kind == 2).then_some(Alive::Done),
        [kind, cookie] => with_cookie(*kind, *cookie),
        _ => None,
    }
}

fn with_cookie(kind: u64, cookie: u64) -> Option<Alive>
    ensures { result ≡ cookie_message kind cookie }
{
    let cookie = u16::try_from(cookie).ok()?;
    match kind {
        0 => Some(Alive::Ask(cookie)),
        1 => Some(Alive::Reply(cookie)),
        _ => None,
    }
}

/// The canonical spelling: a definite array, and heads as short as they can be.
pub fn write_alive(alloc: Global, message: &Alive) -> Result<Octets, OutOfMemory>
    ensures { IfOk result (λ bytes. bytes ≡ written_alive message.now) }
{
    let mut out = Octets::new(alloc);
    match *message {
        Alive::Ask(cookie) => write_numbers(&mut out, &[0, u64::from(cookie)])?,
        Alive::Reply(cookie) => write_numbers(&mut out, &[1, u64::from(cookie)])?,
        Alive::Done => write_numbers(&mut out, &[2])?,
    }
    Ok(out)
}
