//! Lines, read one at a time and interpreted, by whatever gives them a meaning.
#![tactic(auto)]

mod interpreter;
mod outcome;
mod reading;
mod running;
mod stop;
mod telling;

pub use interpreter::Interpreter;
pub use outcome::LineOutcome;
pub use reading::read_line;
pub use running::{LINES_MOST, run_lines};
pub use stop::Stop;
pub use telling::tell_line;
