use net_base::{Field, OutOfMemory};
use std::fmt;

/// What a value of the scenario file was to be.
#[derive(Clone, Copy)]
pub enum Due {
    /// A whole number, at least and at most so much.
    Whole(u64, u64),
    /// Settings or targets of which this one is within its bounds.
    Bounded(Field),
    /// At least the number of this name.
    NotBelow(&'static str),
    /// What the words say.
    Said(&'static str),
}

impl fmt::Display for Due {
    fn fmt<W: fmt::Write>(&self, f: &mut fmt::Formatter<W>) -> fmt::Result {
        match self {
            Due::Whole(least, most) => write!(f, "a whole number from {least} to {most}"),
            Due::Bounded(field) => write!(f, "a table whose {field:?} is within its bounds"),
            Due::NotBelow(name) => write!(f, "at least {name}"),
            Due::Said(words) => f.write_str(words),
        }
    }
}

/// Why bytes are no scenario.
#[derive(Clone, Copy)]
pub enum ScenarioRefusal {
    /// They are no UTF-8, or no TOML document.
    BadToml,
    /// The name of the first value that is wrong or missing, and what was due in its place.
    Wrong(&'static str, Due),
    OutOfMemory,
}

impl fmt::Display for ScenarioRefusal {
    fn fmt<W: fmt::Write>(&self, f: &mut fmt::Formatter<W>) -> fmt::Result {
        match self {
            ScenarioRefusal::BadToml => f.write_str("no TOML document"),
            ScenarioRefusal::Wrong(name, due) => write!(f, "{name}: {due} was due"),
            ScenarioRefusal::OutOfMemory => f.write_str("out of memory"),
        }
    }
}

impl From<OutOfMemory> for ScenarioRefusal {
    fn from(_: OutOfMemory) -> Self {
        ScenarioRefusal::OutOfMemory
    }
}
