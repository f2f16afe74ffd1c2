ghost use Rattle.std.specs.Prelude.{◌≡◌, ◌<◌, ◌*◌, ◌+◌, ◌^◌, ◌++◌, OnOk, option_map};
ghost use Rattle.warm_messages.specs.Address.{address_of, ipv4_of, ipv6_of};
ghost use Rattle.warm_messages.specs.Reading.{address_at};
ghost use Rattle.warm_messages.specs.Writing.{written_address};

use crate::array::write_numbers;
use crate::numbers::split_numbers;
use net_base::{Addr, Ip, Octets, OutOfMemory};

// One more than the greatest word.
const WORD: u128 = 4_294_967_296;

/// The address at the front of the bytes, and the bytes behind it.
#[tactic(auto, unfolding(crate::specs::Reading::address_at))]
pub(crate) fn split_address(bytes: &[u8]) -> Option<(Addr, &[u8])>
    ensures { address_at bytes.now ≡ option_map (λ read. (read.0, read.1.now)) result }
{
    let (numbers, rest) = split_numbers(bytes)?;
    let addr = address_of(numbers.as_slice())?;
    Some((addr, rest))
}

fn address_of(numbers: &[u64]) -> Option<Addr>
    ensures { result ≡ address_of numbers.now }
{
    match numbers {
        [0, word, port] => ipv4(*word, *port),
        [1, a, b, c, d, port] => ipv6(*a, *b, *c, *d, *port),
        // two numbers say nothing
        [1, a, b, c, d, _, _, port] => ipv6(*a, *b, *c, *d, *port),
        _ => None,
    }
}

fn ipv4(word: u64, port: u64) -> Option<Addr>
    ensures { result ≡ ipv4_of word port }
{
    let ip = Ip::V4(u32::try_from(word).ok()?);
    let port = u16::try_from(port).ok()?;
    Some(Addr { ip, port })
}

// Of the words the first is the most significant.
fn ipv6(a: u64, b: u64, c: u64, d: u64, port: u64) -> Option<Addr>
    ensures { result ≡ ipv6_of a b c d port }
{
    let a = u32::try_from(a).ok()?;
    let b = u32::try_from(b).ok()?;
    let c = u32::try_from(c).ok()?;
    let d = u32::try_from(d).ok()?;
    let port = u16::try_from(port).ok()?;
    let ip = Ip::V6(joined(joined(joined(u128::from(a), b), c), d));
    Some(Addr { ip, port })
}

fn joined(high: u128, word: u32) -> u128
    requires { high < 2 ^ 96 }
    ensures { result ≡ high * 2 ^ 32 + word }
{
    high * WORD + u128::from(word)
}

/// Appends an address. Of the two forms of IPv6 it is the shorter one.
pub(crate) fn write_address(out: &mut Octets, addr: Addr) -> Result<(), OutOfMemory>
    ensures { OnOk result (out.new ≡ out.old ++ written_address addr) }
{
    let port = u64::from(addr.port);
    match addr.ip {
        Ip::V4(word) => write_numbers(out, &[0, u64::from(word), port]),
        Ip::V6(ip) => {
            let third = ip / WORD;
            let second = third / WORD;
            let a = (second / WORD) as u64;
            let b = (second % WORD) as u64;
            let c = (third % WORD) as u64;
            let d = (ip % WORD) as u64;
            write_numbers(out, &[1, a, b, c, d, port])
        }
    }
}
