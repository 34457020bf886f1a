//! The outcome of both machines at the end of their run, for `solo`, `run` and `resume`, and the
//! session that is saved.
#![tactic(auto)]

mod kept;
mod saving;

pub use kept::kept_outcome;
pub use saving::entries_below;
