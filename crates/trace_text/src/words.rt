ghost use Rattle.std.specs.Prelude.{◌≡◌};
ghost use Rattle.trace_text.specs.Words.{words_of};
ghost use Rattle.trace_text.specs.declared.line.LineRefusal.TheVariants.{BadWord};
ghost use Rattle.trace_text.specs.Events.{next_addresses, next_group, all_groups, outcome_of, sign_of, piece_of, stops};
ghost use Rattle.trace_text.specs.Lines.{version_of, IsReading};
ghost use Rattle.trace_text.specs.Reading.{next_word, next_number, next_address, next_read, this_word, no_more};
ghost use Rattle.trace_text.specs.Settings.{setting_of};
ghost use Rattle.trace_text.specs.Views.{Gives, GivesIfRoom, found_view};

use crate::LineRefusal;
use crate::address::read_address;
use crate::decimal::{decimal_of, read_decimal};
use crate::piece::{decode_piece, read_piece};
use crate::pieces::Pieces;
use crate::setting::{Found, setting_named};
use net_base::{Addr, AddrList, Group, GroupList, Octets, OutOfMemory};
use std::alloc::Global;
use std::marker::Model;

// The greatest valency.
const VALENCY_MOST: u64 = 10_000;

/// The words of a line that are not read yet.
#[derive(Drop)]
pub struct Words<'a> {
    pieces: Pieces<'a>,
    place: u64,
}

impl<'a> Model for Words<'a> {
    ghost use Rattle.std.specs.Prelude.{◌+◌, ◌<◌, ◌^◌, length};
    ghost use Rattle.trace_text.specs.Words.{Unread};

    ghost Value = { Unread };

    ghost view = { λ w. record { words = w.pieces; place = w.place } };

    ghost invariant = { λ w. w.place + length w.pieces < 2 ^ 64 };
}

impl<'a> Words<'a> {
    /// A line is cut at every single space, so a word may be empty.
    pub fn of(line: &'a [u8]) -> Self
        ensures { result ≡ words_of line.now }
    {
        Words {
            pieces: Pieces::new(b' ', line),
            place: 1,
        }
    }

    /// The place of the next word, from 1.
    pub fn place(&self) -> u64
        ensures { result ≡ self.now.place }
    {
        self.place
    }

    /// The next word, which must not be missing.
    pub fn word(&mut self) -> Result<&'a [u8], LineRefusal>
        ensures { Gives (λ word. word.now) result self.new (next_word self.old) }
    {
        match self.pieces.take() {
            Some(word) => {
                self.place += 1;
                Ok(word)
            }
            None => Err(LineRefusal::BadWord(self.place)),
        }
    }

    /// A number in a range.
    #[inline(always)]
    pub fn number(&mut self, least: u64, most: u64) -> Result<u64, LineRefusal>
        ensures { Gives (λ n. n) result self.new (next_number least most self.old) }
    {
        let place = self.place;
        let found = match self.pieces.take_digits() {
            Some((digits, value)) => {
                self.place += 1;
                decimal_of(digits, value, most)
            }
            None => read_decimal(self.word()?, most),
        };
        match found {
            Some(n) if n >= least => Ok(n),
            _ => Err(LineRefusal::BadNumber(place)),
        }
    }

    /// An address that a trace of a version may hold.
    pub(crate) fn address(&mut self, version: u64) -> Result<Addr, LineRefusal>
        ensures { Gives (λ address. address) result self.new (next_address version self.old) }
    {
        let place = self.place;
        let word = self.word()?;
        read_address(version, word).ok_or(LineRefusal::BadWord(place))
    }

    /// One word and no other.
    pub fn this(&mut self, text: &str) -> Result<(), LineRefusal>
        ensures { Gives (λ word. word) result self.new (next_read (this_word text.now) BadWord self.old) }
    {
        let place = self.place;
        let word = self.word()?;
        if word == text.as_bytes() {
            Ok(())
        } else {
            Err(LineRefusal::BadWord(place))
        }
    }

    /// A version of the trace.
    pub(crate) fn version(&mut self) -> Result<u64, LineRefusal>
        ensures { Gives (λ version. version) result self.new (next_read version_of BadWord self.old) }
    {
        let place = self.place;
        match self.word()? {
            b"1" => Ok(1),
            b"2" => Ok(2),
            _ => Err(LineRefusal::BadWord(place)),
        }
    }

    /// Whether something is so: `ok`, or `failed`.
    pub(crate) fn outcome(&mut self) -> Result<bool, LineRefusal>
        ensures { Gives (λ opened. opened) result self.new (next_read outcome_of BadWord self.old) }
    {
        let place = self.place;
        match self.word()? {
            b"ok" => Ok(true),
            b"failed" => Ok(false),
            _ => Err(LineRefusal::BadWord(place)),
        }
    }

    /// Whether a group is told to others: `+`, or `-`.
    fn sign(&mut self) -> Result<bool, LineRefusal>
        ensures { Gives (λ advertise. advertise) result self.new (next_read sign_of BadWord self.old) }
    {
        let place = self.place;
        match self.word()? {
            b"+" => Ok(true),
            b"-" => Ok(false),
            _ => Err(LineRefusal::BadWord(place)),
        }
    }

    /// The bytes of one read of a socket.
    #[inline(always)]
    pub fn piece(&mut self, alloc: Global) -> Result<Octets, LineRefusal>
        ensures { GivesIfRoom (λ bytes. bytes) result self.new (next_read piece_of BadWord self.old) }
    {
        let place = self.place;
        let found = match self.pieces.take_lower() {
            Some(digits) => {
                self.place += 1;
                decode_piece(alloc, digits)
            }
            None => read_piece(alloc, self.word()?),
        };
        match found {
            Ok(Some(bytes)) => Ok(bytes),
            Ok(None) => Err(LineRefusal::BadWord(place)),
            Err(OutOfMemory) => Err(LineRefusal::OutOfMemory),
        }
    }

    /// Addresses up to the end, or to a slash.
    pub(crate) fn addresses(&mut self, alloc: Global, version: u64) -> Result<AddrList, LineRefusal>
        ensures { GivesIfRoom (λ addresses. addresses) result self.new (next_addresses version self.old) }
    {
        let mut addresses = AddrList::new(alloc);
        while !self.is_at_break() {
            addresses.push(self.address(version)?)?;
        }
        Ok(addresses)
    }

    /// A group, from its slash on.
    fn group(&mut self, alloc: Global, version: u64) -> Result<Group, LineRefusal>
        ensures { GivesIfRoom (λ group. group) result self.new (next_group version self.old) }
    {
        self.this("/")?;
        let hot = self.number(0, VALENCY_MOST)?;
        let warm = self.number(0, VALENCY_MOST)?;
        let advertise = self.sign()?;
        let members = self.addresses(alloc, version)?;
        Ok(Group {
            hot,
            warm,
            advertise,
            members,
        })
    }

    /// Groups up to the end.
    pub(crate) fn groups(&mut self, alloc: Global, version: u64) -> Result<GroupList, LineRefusal>
        ensures { IsReading result (all_groups version self.old) }
    {
        let mut groups = GroupList::new(alloc);
        while !self.pieces.is_empty() {
            groups.push(self.group(alloc, version)?)?;
        }
        Ok(groups)
    }

    // The end, or a slash.
    fn is_at_break(&self) -> bool
        ensures { result ≡ stops self.now.words }
    {
        match self.pieces.first() {
            None => true,
            Some(word) => word == b"/".as_slice(),
        }
    }

    /// A setting's name.
    pub(crate) fn setting(&mut self, hard: u64) -> Result<Found, LineRefusal>
        ensures { Gives found_view result self.new (next_read (setting_of hard) BadWord self.old) }
    {
        let place = self.place;
        let word = self.word()?;
        setting_named(hard, word).ok_or(LineRefusal::BadWord(place))
    }

    /// No word may follow.
    pub fn end(&self) -> Result<(), LineRefusal>
        ensures { result ≡ no_more self.now }
    {
        if self.pieces.is_empty() {
            Ok(())
        } else {
            Err(LineRefusal::BadWord(self.place))
        }
    }
}
