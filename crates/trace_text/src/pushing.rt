//! What lines are made of, printed behind some bytes. Where memory is wanting the bytes are as they were.

ghost use Rattle.std.specs.Prelude.{◌≡◌, ◌≤◌, ◌<◌, ◌∷◌, ◌++◌, decimal, OnOk, OnErr};
ghost use Rattle.hex.specs.Hex.{encode_lower};
ghost use Rattle.trace_text.specs.Addresses.{printed_address, printed_octets};

use crate::front_text::FrontText;
use crate::line_text::line_text;
use crate::lower_hex::encode_lower;
use crate::text::AddressText;
use itoa::Buffer;
use net_base::{Addr, Ip, OutOfMemory};
use std::alloc::Global;

/// A number in decimal. Most have one digit.
pub fn push_number(number: u64, bytes: &mut Vec<u8>) -> Result<(), OutOfMemory>
    ensures ok { OnOk result (bytes.new.items ≡ bytes.old.items ++ decimal number) }
    ensures err { OnErr result (bytes.new.items ≡ bytes.old.items) }
{
    if number < 10 {
        bytes.push(b'0' + number as u8)?;
        return Ok(());
    }
    if number < 1000 {
        return push_few(number as u16, bytes);
    }
    let mut digits = Buffer::new();
    bytes.extend_from_slice(digits.format(number).as_bytes())?;
    Ok(())
}

// A number of two or three digits.
#[inline(always)]
fn push_few(number: u16, bytes: &mut Vec<u8>) -> Result<(), OutOfMemory>
    requires two { 10 ≤ number }
    requires three { number < 1000 }
    ensures ok { OnOk result (bytes.new.items ≡ bytes.old.items ++ decimal number) }
    ensures err { OnErr result (bytes.new.items ≡ bytes.old.items) }
{
    let (front, last) = (number / 10, b'0' + (number % 10) as u8);
    if front < 10 {
        bytes.extend_from_slice(&[b'0' + front as u8, last])?;
    } else {
        bytes.extend_from_slice(&[b'0' + (front / 10) as u8, b'0' + (front % 10) as u8, last])?;
    }
    Ok(())
}

/// A word.
pub fn push_text(word: &str, bytes: &mut Vec<u8>) -> Result<(), OutOfMemory>
    ensures ok { OnOk result (bytes.new.items ≡ bytes.old.items ++ word.now) }
    ensures err { OnErr result (bytes.new.items ≡ bytes.old.items) }
{
    bytes.extend_from_slice(word.as_bytes())?;
    Ok(())
}

/// An address.
#[inline(always)]
pub(crate) fn push_address(
    alloc: Global,
    address: &Addr,
    bytes: &mut Vec<u8>,
) -> Result<(), OutOfMemory>
    ensures ok { OnOk result (bytes.new.items ≡ bytes.old.items ++ printed_address address.now) }
    ensures err { OnErr result (bytes.new.items ≡ bytes.old.items) }
{
    match address.ip {
        Ip::V4(ip) => {
            bytes.extend_from_slice(ipv4_text(ip, address.port).as_bytes())?;
            Ok(())
        }
        Ip::V6(_) => push_text_of(alloc, address, bytes),
    }
}

// An address by its text.
#[inline(never)]
fn push_text_of(alloc: Global, address: &Addr, bytes: &mut Vec<u8>) -> Result<(), OutOfMemory>
    ensures ok { OnOk result (bytes.new.items ≡ bytes.old.items ++ printed_address address.now) }
    ensures err { OnErr result (bytes.new.items ≡ bytes.old.items) }
{
    let text = line_text(alloc, AddressText(*address))?;
    bytes.extend_from_slice(text.as_bytes())?;
    Ok(())
}

// An IPv4 address with its port.
#[inline(always)]
fn ipv4_text(ip: u32, port: u16) -> FrontText
    ensures { result ≡ printed_octets ip ++ (58 ∷ decimal port) }
{
    let mut text = FrontText::new();
    text.put_number(u32::from(port));
    text.put_octet(ip % 256, b':');
    text.put_octet(ip / 256 % 256, b'.');
    text.put_octet(ip / 65_536 % 256, b'.');
    text.put_octet(ip / 16_777_216 % 256, b'.');
    text
}

/// Bytes in hexadecimal.
pub fn push_hex(piece: &[u8], bytes: &mut Vec<u8>) -> Result<(), OutOfMemory>
    ensures ok { OnOk result (bytes.new.items ≡ bytes.old.items ++ encode_lower piece.now) }
    ensures err { OnErr result (bytes.new.items ≡ bytes.old.items) }
{
    let before = bytes.len();
    let after = before.checked_add(piece.len() * 2).ok_or(OutOfMemory)?;
    bytes.resize(after, 0)?;
    encode_lower(piece, &mut bytes[before..]);
    Ok(())
}
