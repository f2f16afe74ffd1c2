//! Two nodes that shake hands, over every interleaving of what their pipes deliver.
#![tactic(auto)]

mod both_ends;
mod end;
mod end_state;
mod hearing;
pub mod law;
mod note;
mod note_text;
mod pair;
mod pair_line;
mod pair_replay;
mod pair_step;
mod running;
mod speaking;
mod words;

pub use end::{End, EndCause, EndPhase};
pub use line_run::LineOutcome as PairOutcome;
pub use note::{NoteList, PairNote};
pub use pair::Pair;
pub use pair_step::PairStep;
pub use running::pair_run;
