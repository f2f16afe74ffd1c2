use net_base::OutOfMemory;
use std::env;
use std::io::ErrorKind;
use std::rt::Env;

/// The words of the command line, without the program's name. Arguments that are no text are no words.
pub(crate) fn command_words<R: Env + AllocGlobal>(rt: &R) -> Result<Vec<String>, OutOfMemory> {
    match env::args(rt) {
        Ok(args) => Ok(args.skip(1).collect(rt.alloc())?),
        Err(error) if error.kind() == ErrorKind::OutOfMemory => Err(OutOfMemory),
        Err(_) => Ok(Vec::new(rt.alloc())),
    }
}
