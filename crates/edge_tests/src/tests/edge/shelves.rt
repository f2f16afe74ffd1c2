use super::octets;
use io_edge::*;
use net_base::{NumberList, OutOfMemory, Sequence};
use std::alloc::Global;
use std::process::Abort;
use std::test::Fail;
use std::{env, fs, process};

fn file(alloc: Global, name: &[u8], bytes: &[u8]) -> Result<NamedFile, OutOfMemory> {
    Ok(NamedFile {
        name: octets(alloc, name)?,
        bytes: octets(alloc, bytes)?,
    })
}

// Two files of one name and an empty one, of which some readings fail.
fn shelf(alloc: Global, failing: &[u64]) -> Result<MemShelf, OutOfMemory> {
    let mut files = Sequence::new(alloc);
    files.push(file(alloc, b"a", b"first")?)?;
    files.push(file(alloc, b"b", b"")?)?;
    files.push(file(alloc, b"a", b"second")?)?;
    let failing = NumberList::from_slice(alloc, failing)?;
    Ok(MemShelf::new(alloc, files, failing))
}

// A name, how many bytes are taken of it at most, and the answer.
type Row<'a> = (&'a str, usize, Result<&'a [u8], ShelfRefusal>);

// Whether a file is read so.
fn reads<S: Shelf>(
    shelf: &mut S,
    name: &str,
    limit: usize,
    wanted: Result<&[u8], ShelfRefusal>,
) -> bool {
    let found = shelf.read(name, limit);
    match (&found, wanted) {
        (Ok(bytes), Ok(wanted)) => bytes.as_slice() == wanted,
        (Err(refusal), Err(wanted)) => *refusal == wanted,
        _ => false,
    }
}

fn expect<S: Shelf>(rt: &impl Abort, shelf: &mut S, rows: &[Row<'_>]) {
    for (name, limit, wanted) in rows {
        assert!(rt;
            reads(shelf, *name, *limit, *wanted),
            "{name} up to {limit}"
        );
    }
}

const READINGS: [Row; 6] = [
    ("a", 5, Ok(b"first")),
    ("a", 5, Err(ShelfRefusal::Failed)),
    ("a", 4, Err(ShelfRefusal::TooLarge(5))),
    ("b", 0, Ok(b"")),
    ("b", 0, Err(ShelfRefusal::Failed)),
    ("c", 9, Err(ShelfRefusal::Failed)),
];

#[test]
fn a_file_in_memory_is_read_by_its_name(rt: HostRuntime) -> Result<(), Fail> {
    let mut shelf = shelf(rt.alloc(), &[2, 5])?;
    expect(&rt, &mut shelf, &READINGS);
    Ok(())
}

#[test]
fn a_file_of_the_system_is_read_by_its_path(rt: HostRuntime) -> Result<(), Fail> {
    let alloc = rt.alloc();
    let name = format!(in alloc; "heomtsel-shelf-{}", process::id(rt.process()))?;
    let path = env::temp_dir(&rt)?.join(alloc, name.as_str())?;
    fs::write(&rt, path.as_path(), b"content".as_slice())?;
    let mut shelf = DirShelf::new(alloc, &rt);
    let there = [
        (path.as_str(), 7, Ok(b"content".as_slice())),
        (path.as_str(), 6, Err(ShelfRefusal::TooLarge(7))),
    ];
    expect(&rt, &mut shelf, &there);
    fs::remove_file(&rt, path.as_path())?;
    // nothing, a directory, and a device that has no end
    let gone = [
        (path.as_str(), 7, Err(ShelfRefusal::Failed)),
        ("/", 7, Err(ShelfRefusal::Failed)),
        ("/dev/zero", 7, Err(ShelfRefusal::TooLarge(8))),
    ];
    expect(&rt, &mut shelf, &gone);
    Ok(())
}
