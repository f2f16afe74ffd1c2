//! Traces, replayed by the engine: the bytes of a trace in, the same trace with the machine's actions out; and compared
//! with that.
#![tactic(auto)]

mod checking;
pub mod law;
mod replaying;

pub use checking::check;
pub use replaying::replay;
