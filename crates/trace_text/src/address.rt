ghost use Rattle.std.specs.Prelude.{◌≡◌, ◌<◌, ◌≤◌, length, IfSome, false};
ghost use Rattle.std.specs.Option.{option_map};
ghost use Rattle.net_base.specs.Number.{is_digit};
ghost use Rattle.trace_text.specs.Addresses.{address_of, ipv4_address_of, ipv6_address_of, groups_of, port_of, port_after, group_of, hex_digit, number_read};
ghost use Rattle.trace_text.specs.InTurn.{ipv4_in_turn, octet_before, octet_up_to};

use crate::decimal::read_decimal;
use crate::pieces::{Pieces, cut_once};
use net_base::{Addr, Ip};

/// The address that a word spells. A trace of version 1 has no IPv6 address.
pub fn read_address(version: u64, word: &[u8]) -> Option<Addr>
    ensures { result ≡ address_of version word.now }
{
    match word {
        [b'[', rest @ ..] if version == 2 => read_ipv6(rest),
        _ => read_ipv4(word),
    }
}

fn read_ipv4(word: &[u8]) -> Option<Addr>
    ensures { result ≡ ipv4_address_of word.now }
{
    read_in_turn(word)
}

fn read_in_turn(word: &[u8]) -> Option<Addr>
    ensures { result ≡ ipv4_in_turn word.now }
{
    let (first, rest) = octet_before(b'.', word)?;
    let (second, rest) = octet_before(b'.', rest)?;
    let (third, rest) = octet_before(b'.', rest)?;
    let (fourth, rest) = octet_before(b':', rest)?;
    let port = read_port(rest)?;
    let ip = Ip::V4(u32::from_be_bytes([first, second, third, fourth]));
    Some(Addr { ip, port })
}

// An octet has one, two or three digits.
#[inline(always)]
fn octet_before(separator: u8, text: &[u8]) -> Option<(u8, &[u8])>
    requires { is_digit separator ≡ false }
    ensures { option_map (λ read. (read.0, read.1.now)) result ≡ octet_before separator text.now }
{
    match text {
        [_, end, ..] if *end == separator => octet_up_to(1, text),
        [_, _, end, ..] if *end == separator => octet_up_to(2, text),
        [_, _, _, end, ..] if *end == separator => octet_up_to(3, text),
        _ => None,
    }
}

#[inline(always)]
fn octet_up_to(end: usize, text: &[u8]) -> Option<(u8, &[u8])>
    requires { end < length text.now }
    ensures { option_map (λ read. (read.0, read.1.now)) result ≡ octet_up_to end text.now }
{
    let octet = read_decimal(&text[..end], 255)?;
    Some((octet as u8, &text[end + 1..]))
}

// An IPv6 address behind its opening bracket.
fn read_ipv6(word: &[u8]) -> Option<Addr>
    ensures { result ≡ ipv6_address_of word.now }
{
    let (host, rest) = cut_once(word, b']')?;
    let ip = Ip::V6(read_groups(host)?);
    let port = read_port_after(rest)?;
    Some(Addr { ip, port })
}

fn read_port(word: &[u8]) -> Option<u16>
    ensures { result ≡ port_of word.now }
{
    let port = read_decimal(word, 65_535)?;
    Some(port as u16)
}

fn read_port_after(word: &[u8]) -> Option<u16>
    ensures { result ≡ port_after word.now }
{
    match word {
        [b':', port @ ..] => read_port(port),
        _ => None,
    }
}

fn read_groups(text: &[u8]) -> Option<u128>
    ensures { result ≡ groups_of text.now }
{
    let mut groups = Pieces::new(b':', text);
    let mut ip: u128 = 0;
    for _ in 0..8_u8 {
        let group = read_group(groups.take()?)?;
        ip = ip * 65_536 + u128::from(group);
    }
    if groups.is_empty() { Some(ip) } else { None }
}

fn read_group(word: &[u8]) -> Option<u16>
    ensures { result ≡ group_of word.now }
{
    match word {
        [] | [b'0', _, ..] | [_, _, _, _, _, ..] => None,
        _ => hex_value(word),
    }
}

fn hex_value(digits: &[u8]) -> Option<u16>
    requires { length digits.now ≤ 4 }
    ensures { result ≡ number_read 16 hex_digit digits.now }
{
    let mut value: u16 = 0;
    for digit in digits {
        value = value * 16 + hex_digit(*digit)?;
    }
    Some(value)
}

fn hex_digit(byte: u8) -> Option<u16>
    ensures value { result ≡ hex_digit byte }
    ensures within { IfSome result (λ digit. digit < 16) }
{
    match byte {
        b'0'..=b'9' => Some(u16::from(byte - b'0')),
        b'a'..=b'f' => Some(u16::from(byte - b'a') + 10),
        _ => None,
    }
}
