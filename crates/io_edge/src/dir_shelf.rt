ghost use Rattle.std.specs.Prelude.{◌≡◌, ℕ, ◌+◌, ◌<◌, ◌≤◌, [], length, take, None, Err, IfOk, IfSome, MatchResult};
ghost use Rattle.std.specs.IoError.{error_kind};
ghost use Rattle.io_edge.specs.Files.{IsReading, IsWithin, with_reading};

use crate::reading::LentReading;
use crate::reading_log::ReadingLog;
use crate::{Shelf, ShelfRefusal};
use net_base::Octets;
use std::alloc::Global;
use std::fs::OpenFile;
use std::io::{ErrorKind, Read};
use std::marker::Model;
use std::rt::Files;
use std::{fs, io};

/// The files of a runtime, each by its path. Their bytes are not told. Contracts see the readings.
#[derive(Drop)]
pub struct DirShelf<R: Files> {
    alloc: Global,
    rt: R,
    log: ReadingLog,
}

impl<R: Files> Model for DirShelf<R> {
    ghost use Rattle.std.specs.Prelude.{List};
    ghost use Rattle.io_edge.specs.declared.reading.Reading.{Reading};

    ghost Value = { List Reading };

    ghost view = { λ s. s.log.items };
}

impl<R: Files> DirShelf<R> {
    /// No reading was made yet.
    pub fn new(alloc: Global, rt: R) -> DirShelf<R>
        ensures { result ≡ [] }
    {
        DirShelf {
            alloc,
            rt,
            log: ReadingLog::new(),
        }
    }
}

impl<R: Files> Shelf for DirShelf<R> {
    ghost file = { λ _ _. None };

    ghost readings = { λ readings. readings };

    fn read(&mut self, name: &str, limit: usize) -> Result<Octets, ShelfRefusal>
        ensures reading { IsReading None limit result }
        ensures made { self.new ≡ with_reading self.old name.now limit result }
    {
        let answer = answer_of(self.alloc, &self.rt, name, limit);
        self.log = self.log.with(&LentReading {
            name,
            limit,
            answer: &answer,
        });
        answer
    }
}

// What a reading answers.
fn answer_of<R: Files>(
    alloc: Global,
    rt: &R,
    name: &str,
    limit: usize,
) -> Result<Octets, ShelfRefusal>
    ensures { IsReading None limit result }
{
    match read_file(alloc, rt, name, limit) {
        Ok(found) => found.map_err(ShelfRefusal::TooLarge),
        Err(error) => Err(refusal_of(error)),
    }
}

// Why a file was not read. Want of memory is no fault of the file.
fn refusal_of(error: io::Error) -> ShelfRefusal
    ensures reading { (limit : ℕ) → IsReading None limit (Err result) }
    ensures memory { result ≡ ShelfRefusal.OutOfMemory → error_kind error ≡ ErrorKind.OutOfMemory }
{
    match error.kind() {
        ErrorKind::OutOfMemory => ShelfRefusal::OutOfMemory,
        _ => ShelfRefusal::Failed,
    }
}

// The bytes of a file, or how many there are where they are more than so many. No more than one byte beyond is held.
fn read_file<R: Files>(
    alloc: Global,
    rt: &R,
    path: &str,
    limit: usize,
) -> io::Result<Result<Octets, usize>>
    ensures { IfOk result (λ found. MatchResult found (λ bytes. length bytes ≤ limit) (λ size. limit < size)) }
{
    let mut file = fs::open(rt, path)?;
    let size = size_of(&file)?;
    if size > limit {
        return Ok(Err(size));
    }
    match read_within(alloc, &mut file, limit)? {
        Ok(bytes) => Ok(Ok(bytes)),
        // It has grown, or is a device that tells no size.
        Err(seen) => Ok(Err(size_of(&file)?.max(seen))),
    }
}

// All that a reader has left, or how many bytes were seen of it where it is more than so many.
fn read_within<R: Read>(
    alloc: Global,
    reader: &mut R,
    limit: usize,
) -> io::Result<Result<Octets, usize>>
    ensures { IfOk result (λ found. IsWithin (R.remaining reader.old) limit found) }
{
    let bytes = read_front(alloc, reader, limit)?;
    if bytes.len() > limit {
        Ok(Err(bytes.len()))
    } else {
        Ok(Ok(Octets::from_vec(bytes)))
    }
}

// What a reader has left, up to one byte behind so many.
fn read_front<R: Read>(alloc: Global, reader: &mut R, limit: usize) -> io::Result<Vec<u8>>
    ensures { IfOk result (λ bytes. IfSome (R.remaining reader.old) (λ all. bytes.items ≡ take (limit + 1) all)) }
{
    let mut bytes = Vec::new(alloc);
    let Some(most) = (limit as u64).checked_add(1) else {
        reader.read_to_end(&mut bytes)?;
        return Ok(bytes);
    };
    reader.take(most).read_to_end(&mut bytes)?;
    Ok(bytes)
}

// How many bytes a file has. A directory has none to read.
fn size_of<F: OpenFile>(file: &F) -> io::Result<usize> {
    let metadata = file.metadata()?;
    if metadata.is_dir() {
        return Err(io::Error::from(ErrorKind::IsADirectory));
    }
    Ok(metadata.len() as usize)
}
