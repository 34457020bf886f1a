//! The outcome of a session file whose run continues: `resume`.
#![tactic(auto)]

mod going;
mod resumed;
mod state;

pub use resumed::session_outcome;
