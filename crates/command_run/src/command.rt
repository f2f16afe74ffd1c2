ghost use Rattle.std.specs.Prelude.{◌≡◌, map, string_bytes, IfSome};
ghost use Rattle.net_base.specs.Number.{number_up_to};
ghost use Rattle.command_run.specs.Command.{command_named, command_of, clients_of, drill_of, IsInRange};

use local_clients::ClientRules;
use net_base::{INTERVAL_MOST, read_number};
use trace_text::read_magic;

// How many events a drill may have.
const EVENTS_MOST: u64 = 1_000_000;

// How many local clients there may be.
const CLIENTS_MOST: u64 = 10_000;

/// What the words of a command line ask for.
#[derive(Clone, Copy, PartialEq, Eq)]
pub enum Command {
    Replay,
    Check,
    Pair,
    Clients(ClientRules),
    /// The seed of a town, and how many events of it.
    Drill { seed: u64, count: u64 },
}

impl Command {
    /// The command that the words are, without the program's name. None is where they are no command.
    pub fn of_words(words: &[String]) -> Option<Command>
        ensures command { result ≡ command_of (map string_bytes words.now) }
        ensures in_range { IfSome result IsInRange }
    {
        match words {
            [word] => Command::named(word.as_str()),
            [word, seed, count] if word.as_str() == "drill" => {
                Command::drill(seed.as_str(), count.as_str())
            }
            [word, magic, limit, wait] if word.as_str() == "clients" => {
                Command::clients(magic.as_str(), limit.as_str(), wait.as_str())
            }
            _ => None,
        }
    }

    // The command of one word.
    fn named(word: &str) -> Option<Command>
        ensures command { result ≡ command_named word.now }
        ensures in_range { IfSome result IsInRange }
    {
        match word {
            "replay" => Some(Command::Replay),
            "check" => Some(Command::Check),
            "pair" => Some(Command::Pair),
            _ => None,
        }
    }

    // A drill with these two words.
    fn drill(seed: &str, count: &str) -> Option<Command>
        ensures command { result ≡ drill_of (number_up_to 18_446_744_073_709_551_615 seed.now) (number_up_to 1_000_000 count.now) }
        ensures in_range { IfSome result IsInRange }
    {
        let seed = read_number(seed.as_bytes(), u64::MAX)?;
        let count = read_number(count.as_bytes(), EVENTS_MOST)?;
        if 1 <= count && count <= EVENTS_MOST {
            Some(Command::Drill { seed, count })
        } else {
            None
        }
    }

    // Local clients with these words.
    fn clients(magic: &str, limit: &str, wait: &str) -> Option<Command>
        ensures command { result ≡ clients_of (number_up_to 4_294_967_295 magic.now) (number_up_to 10_000 limit.now) (number_up_to 86_400_000 wait.now) }
        ensures in_range { IfSome result IsInRange }
    {
        let magic = read_magic(magic.as_bytes())?;
        let limit = read_number(limit.as_bytes(), CLIENTS_MOST)?;
        let wait = read_number(wait.as_bytes(), INTERVAL_MOST)?;
        if 1 <= limit && limit <= CLIENTS_MOST && 1 <= wait && wait <= INTERVAL_MOST {
            Some(Command::Clients(ClientRules { magic, limit, wait }))
        } else {
            None
        }
    }
}
