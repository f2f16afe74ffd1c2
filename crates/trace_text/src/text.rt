ghost use Rattle.std.specs.Prelude.{◌≡◌, Some, false, map};
ghost use Rattle.std.specs.Fmt.{digits};
ghost use Rattle.trace_text.specs.Addresses.{printed_address, printed_octets, joined_groups, low_digits};
ghost use Rattle.trace_text.specs.EventTexts.{spaced};

use net_base::{Addr, Ip};
use std::fmt;
use std::net::{Ipv4Addr, Ipv6Addr};

/// An address as lines spell it.
#[derive(Clone, Copy)]
pub struct AddressText(pub Addr);

impl fmt::Display for AddressText {
    ghost output = { λ text. Some (printed_address text.0) };

    fn fmt<W: fmt::Write>(&self, f: &mut fmt::Formatter<W>) -> fmt::Result {
        let port = self.0.port;
        match self.0.ip {
            Ip::V4(ip) => {
                let octets = Octets(ip);
                write!(f, "{octets}:{port}")
            }
            Ip::V6(ip) => {
                let groups = segments(ip);
                write!(f, "[{}]:{port}", Groups(&groups))
            }
        }
    }
}

/// Addresses, each behind a space.
#[derive(Clone, Copy)]
pub struct AddressTexts<'a>(pub &'a [Addr]);

impl fmt::Display for AddressTexts<'_> {
    ghost output = { λ text. Some (spaced (map printed_address text.0.now)) };

    fn fmt<W: fmt::Write>(&self, f: &mut fmt::Formatter<W>) -> fmt::Result {
        for address in self.0 {
            write!(f, " {}", AddressText(*address))?;
        }
        Ok(())
    }
}

// Four octets in decimal.
#[derive(Clone, Copy)]
struct Octets(u32);

impl fmt::Display for Octets {
    ghost output = { λ text. Some (printed_octets text.0) };

    fn fmt<W: fmt::Write>(&self, f: &mut fmt::Formatter<W>) -> fmt::Result {
        let ip = Ipv4Addr::from_bits(self.0);
        write!(f, "{ip}")
    }
}

// Groups joined by colons.
#[derive(Clone, Copy)]
struct Groups<'a>(&'a [u16]);

impl fmt::Display for Groups<'_> {
    ghost output = { λ text. Some (joined_groups text.0.now) };

    fn fmt<W: fmt::Write>(&self, f: &mut fmt::Formatter<W>) -> fmt::Result {
        if let [first, rest @ ..] = self.0 {
            f.write(Group(*first))?;
            for group in rest {
                write!(f, ":{}", Group(*group))?;
            }
        }
        Ok(())
    }
}

// Sixteen bits in hexadecimal, without leading zeros.
#[derive(Clone, Copy)]
struct Group(u16);

impl fmt::Display for Group {
    ghost output = { λ group. Some (digits 16 false group.0) };

    fn fmt<W: fmt::Write>(&self, f: &mut fmt::Formatter<W>) -> fmt::Result {
        let group = self.0;
        write!(f, "{group:x}")
    }
}

fn segments(ip: u128) -> [u16; 8]
    ensures { result ≡ low_digits 65536 8 ip }
{
    Ipv6Addr::from_bits(ip).segments()
}
