//! What the bytes of a trace come to: which of its lines decides, and what is written for those before it.
#![tactic(auto)]

mod head;
mod outcome;
mod putting;

pub use head::settings_of;
pub use outcome::Outcome;
pub use putting::put_pending;
