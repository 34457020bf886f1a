//! Laws of sessions, of traces and of refusals, above the definitions of the commands. A run that
//! is saved and resumed from its session file is one run. The trace of a run agrees with it in a
//! later call. If several causes for a refusal hold, one list says which is reported. No crate
//! depends on this one.
#![tactic(auto)]

mod machines;
mod options;
mod refusals;
mod runs;
mod traces;
mod words;

pub use machines::machines_are_made_again;
pub use options::{options_move, output_options};
pub use refusals::refusals_in_order;
pub use runs::{
    longer_run_goes_on, resumed_run_is_one_run, saved_run_is_one_run, saved_run_is_read,
    session_begins, session_is_written, words_go_on,
};
pub use traces::{run_is_checked, run_is_followed, run_is_replayed};
pub use words::words_begin;
