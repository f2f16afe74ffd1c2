//! Picks: which of several peers come first, by a score that the caller's closure gives.
#![tactic(auto)]

mod laws;
mod picker;
mod ranked_picker;
mod rated;
mod scored;
mod short_list;

pub use laws::picks_are_the_least;
pub use picker::Picker;
pub use ranked_picker::RankedPicker;
pub use rated::Rated;
