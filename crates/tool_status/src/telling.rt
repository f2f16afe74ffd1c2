ghost use Rattle.std.specs.Prelude.{◌≡◌, ◌++◌, OnOk, OnErr, codes, decimal};
ghost use Rattle.std.specs.List.{flat_map};
ghost use Rattle.tool_status.specs.Status.{status_text, unresolved_text};
ghost use Rattle.tool_status.specs.Telling.{Says};

use crate::{Status, What, Which};
use io_edge::{Failed, Sink, put_all};
use itoa::Buffer;
use net_base::RefusalKind;

const USAGE: &str =
    "usage: replay | check | pair | clients MAGIC LIMIT WAIT | drill SEED COUNT | node CONF TOPO COUNT";

/// Writes the text of a status. Takes no memory.
pub fn tell<E: Sink>(status: &Status, err: &mut E) -> Result<(), Failed>
    ensures { Says (E.taken err.old) (E.taken err.new) (E.faults err.old) (E.faults err.new) (status_text status.now) result }
{
    match status {
        Status::Done | Status::Differ { .. } => Ok(()),
        Status::Usage => put_pieces(err, &[USAGE, "\n"]),
        Status::Refused { line, kind } => tell_refused(*line, *kind, err),
        Status::ReadFault => put_pieces(err, &["read fault\n"]),
        Status::WriteFault => put_pieces(err, &["write fault\n"]),
        Status::OutOfMemory => put_pieces(err, &["out of memory\n"]),
        Status::WorldFault => put_pieces(err, &["world fault\n"]),
        Status::FileFault { which } => tell_file_fault(*which, err),
        Status::TooLong { line } => tell_too_long(*line, err),
        Status::BadSettings { what } => tell_bad_settings(*what, err),
        Status::FileTooLarge { which, size } => tell_file_too_large(*which, *size, err),
    }
}

/// Writes the text of a status behind what was to be told before it, where that was taken.
pub fn tell_behind<E: Sink>(
    before: Result<(), Failed>,
    status: &Status,
    err: &mut E,
) -> Result<(), Failed>
    ensures whole { OnOk before (Says (E.taken err.old) (E.taken err.new) (E.faults err.old) (E.faults err.new) (status_text status.now) result) }
    ensures cut_taken { OnErr before (E.taken err.new ≡ E.taken err.old) }
    ensures cut_faults { OnErr before (E.faults err.new ≡ E.faults err.old) }
{
    before?;
    tell(status, err)
}

/// Writes how many access points of a topology are named by something else than an address. Takes no memory.
pub fn tell_unresolved<E: Sink>(count: u64, err: &mut E) -> Result<(), Failed>
    ensures { Says (E.taken err.old) (E.taken err.new) (E.faults err.old) (E.faults err.new) (unresolved_text count) result }
{
    let mut number = Buffer::new();
    put_pieces(err, &["unresolved ", number.format(count), "\n"])
}

fn tell_refused<E: Sink>(line: u64, kind: RefusalKind, err: &mut E) -> Result<(), Failed>
    ensures { Says (E.taken err.old) (E.taken err.new) (E.faults err.old) (E.faults err.new) (status_text (Status.Refused line kind)) result }
{
    match kind {
        RefusalKind::Word(place) => tell_place(line, "word ", place, err),
        RefusalKind::Number(place) => tell_place(line, "number ", place, err),
        RefusalKind::Targets => tell_kind(line, "targets", err),
        RefusalKind::Order => tell_kind(line, "order", err),
        RefusalKind::NoEnd => tell_kind(line, "no end", err),
    }
}

// Writes that a line is refused, why, and at which of its words.
fn tell_place<E: Sink>(line: u64, kind: &str, place: u64, err: &mut E) -> Result<(), Failed>
    ensures { Says (E.taken err.old) (E.taken err.new) (E.faults err.old) (E.faults err.new)
        (codes "line " ++ (decimal line ++ (codes " refused: " ++ (kind.now ++ (decimal place ++ codes "\n"))))) result }
{
    let mut number = Buffer::new();
    let mut word = Buffer::new();
    put_pieces(
        err,
        &[
            "line ",
            number.format(line),
            " refused: ",
            kind,
            word.format(place),
            "\n",
        ],
    )
}

// Writes that a line is refused, and why.
fn tell_kind<E: Sink>(line: u64, kind: &str, err: &mut E) -> Result<(), Failed>
    ensures { Says (E.taken err.old) (E.taken err.new) (E.faults err.old) (E.faults err.new)
        (codes "line " ++ (decimal line ++ (codes " refused: " ++ (kind.now ++ codes "\n")))) result }
{
    let mut number = Buffer::new();
    put_pieces(
        err,
        &["line ", number.format(line), " refused: ", kind, "\n"],
    )
}

fn tell_file_fault<E: Sink>(which: Which, err: &mut E) -> Result<(), Failed>
    ensures { Says (E.taken err.old) (E.taken err.new) (E.faults err.old) (E.faults err.new) (status_text (Status.FileFault which)) result }
{
    put_pieces(err, &["file fault ", which.name(), "\n"])
}

fn tell_too_long<E: Sink>(line: u64, err: &mut E) -> Result<(), Failed>
    ensures { Says (E.taken err.old) (E.taken err.new) (E.faults err.old) (E.faults err.new) (status_text (Status.TooLong line)) result }
{
    let mut number = Buffer::new();
    put_pieces(err, &["too long: line ", number.format(line), "\n"])
}

fn tell_bad_settings<E: Sink>(what: What, err: &mut E) -> Result<(), Failed>
    ensures { Says (E.taken err.old) (E.taken err.new) (E.faults err.old) (E.faults err.new) (status_text (Status.BadSettings what)) result }
{
    put_pieces(err, &["settings refused: ", what.name(), "\n"])
}

fn tell_file_too_large<E: Sink>(which: Which, size: u64, err: &mut E) -> Result<(), Failed>
    ensures { Says (E.taken err.old) (E.taken err.new) (E.faults err.old) (E.faults err.new) (status_text (Status.FileTooLarge which size)) result }
{
    let mut number = Buffer::new();
    put_pieces(
        err,
        &[
            "file too large ",
            which.name(),
            " ",
            number.format(size),
            "\n",
        ],
    )
}

// Has all pieces taken, one after another.
fn put_pieces<E: Sink>(err: &mut E, pieces: &[&str]) -> Result<(), Failed>
    ensures { Says (E.taken err.old) (E.taken err.new) (E.faults err.old) (E.faults err.new) (flat_map (λ piece. piece.now) pieces.now) result }
{
    for piece in pieces {
        put_all(err, piece.as_bytes())?;
    }
    Ok(())
}
