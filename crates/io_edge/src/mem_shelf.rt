ghost use Rattle.std.specs.Prelude.{◌≡◌, ℕ, [], List};
ghost use Rattle.io_edge.specs.Files.{IsReading, with_reading};
ghost use Rattle.net_base.specs.Calls.{after_call};
ghost use Rattle.io_edge.specs.Shelves.{has_name, place_of, bytes_of, reading_of, next_reading, IsAnswerOr, after_reading};

use crate::reading::LentReading;
use crate::reading_log::ReadingLog;
use crate::{FileList, NamedFile, Shelf, ShelfRefusal};
use net_base::{CallLog, NumberList, Octets};
use std::alloc::Global;
use std::marker::Model;

/// Files in memory, read by calls of which some fail. Of two files of one name the first is read. To read a name that
/// no file has fails too. Contracts see the files, the calls and the readings.
#[derive(Drop)]
pub struct MemShelf {
    alloc: Global,
    files: FileList,
    calls: CallLog,
    log: ReadingLog,
}

impl Model for MemShelf {
    ghost use Rattle.io_edge.specs.Shelves.{MemoryShelf};

    ghost Value = { MemoryShelf };

    ghost view = { λ s. record { files = s.files; calls = s.calls; readings = s.log.items } };
}

impl MemShelf {
    /// No call is made yet. Of the calls, counted from 1, those fail whose numbers are given.
    pub fn new(alloc: Global, files: FileList, failing: NumberList) -> MemShelf
        ensures files { result.files ≡ files }
        ensures calls { result.calls ≡ record { made = 0; failing = failing; faults = 0 } }
        ensures readings { result.readings ≡ [] }
    {
        MemShelf {
            alloc,
            files,
            calls: CallLog::new(failing),
            log: ReadingLog::new(),
        }
    }

    // What the next reading answers.
    fn next(&mut self, name: &str, limit: usize) -> Result<Octets, ShelfRefusal>
        ensures files { self.new.files ≡ self.old.files }
        ensures calls { self.new.calls ≡ after_call self.old.calls }
        ensures readings { self.new.readings ≡ self.old.readings }
        ensures answer { IsAnswerOr (next_reading self.old.calls (bytes_of self.old.files name.now) limit) result }
    {
        if self.calls.count_call() {
            return Err(ShelfRefusal::Failed);
        }
        let place = place_of(self.files.as_slice(), name);
        match self.files.as_slice().get(place) {
            Some(file) => copy_of(self.alloc, file, limit),
            None => Err(ShelfRefusal::Failed),
        }
    }
}

impl Shelf for MemShelf {
    ghost file = { λ s. bytes_of s.files };

    ghost readings = { λ s. s.readings };

    fn read(&mut self, name: &str, limit: usize) -> Result<Octets, ShelfRefusal>
        ensures kept { (other : List ℕ) → bytes_of self.new.files other ≡ bytes_of self.old.files other }
        ensures reading { IsReading (bytes_of self.old.files name.now) limit result }
        ensures made { self.new.readings ≡ with_reading self.old.readings name.now limit result }
        ensures answer { IsAnswerOr (next_reading self.old.calls (bytes_of self.old.files name.now) limit) result }
        ensures after { self.new ≡ after_reading self.old name.now limit result }
    {
        let answer = self.next(name, limit);
        self.log = self.log.with(&LentReading {
            name,
            limit,
            answer: &answer,
        });
        answer
    }
}

// The place of the first file of a name, or the number of files.
fn place_of(files: &[NamedFile], name: &str) -> usize
    ensures { result ≡ place_of files.now name.now }
{
    for (place, file) in files.iter().enumerate() {
        if has_name(file, name) {
            return place;
        }
    }
    files.len()
}

fn has_name(file: &NamedFile, name: &str) -> bool
    ensures { result ≡ has_name name.now file.now }
{
    file.name.as_slice() == name.as_bytes()
}

// The bytes of a file, where they are at most so many.
fn copy_of(alloc: Global, file: &NamedFile, limit: usize) -> Result<Octets, ShelfRefusal>
    ensures { IsAnswerOr (reading_of file.now.bytes limit) result }
{
    let bytes = file.bytes.as_slice();
    if bytes.len() > limit {
        return Err(ShelfRefusal::TooLarge(bytes.len()));
    }
    Ok(Octets::from_slice(alloc, bytes)?)
}
