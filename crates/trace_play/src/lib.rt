//! Traces, played on whatever steps as the machine does: the bytes of a trace in, the same trace with the machine's actions
//! out; and compared with that.
#![tactic(auto)]

mod beginning;
mod checker;
mod checking;
mod playback;
mod replaying;
mod report;

pub use checking::check_by;
pub use replaying::replay_by;
