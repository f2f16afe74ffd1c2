use net_base::{OutOfMemory, read_number};
use network_sim::Asked;
use std::env;
use std::io::ErrorKind;
use std::rt::Env;

const SECONDS_MOST: u64 = 86_400;

const NODES_MOST: u64 = 10_000_000;

/// What the words of the command line ask for.
#[derive(Clone, Copy)]
pub(crate) struct Wanted<'a> {
    pub file: &'a str,
    pub asked: Asked,
}

/// The words of the command line, without the program's name. Arguments that are no text are no words.
pub(crate) fn command_words<R: Env + AllocGlobal>(rt: &R) -> Result<Vec<String>, OutOfMemory> {
    match env::args(rt) {
        Ok(args) => Ok(args.skip(1).collect(rt.alloc())?),
        Err(error) if error.kind() == ErrorKind::OutOfMemory => Err(OutOfMemory),
        Err(_) => Ok(Vec::new(rt.alloc())),
    }
}

/// What they ask for, if it is anything.
pub(crate) fn wanted_by(words: &[String]) -> Option<Wanted<'_>> {
    let (file, seed, seconds, traced) = match words {
        [file, seed, seconds] => (file, seed, number(seconds, SECONDS_MOST)?, None),
        [file, seed, trace, node] if trace.as_str() == "trace" => {
            let node = number(node, NODES_MOST)?;
            (file, seed, SECONDS_MOST, Some(node as usize))
        }
        _ => return None,
    };
    if seconds == 0 {
        return None;
    }
    Some(Wanted {
        file: file.as_str(),
        asked: Asked {
            seed: number(seed, u64::MAX)?,
            every: seconds.saturating_mul(1_000),
            traced,
        },
    })
}

fn number(word: &String, most: u64) -> Option<u64> {
    read_number(word.as_str().as_bytes(), most)
}
